// What an accepted file says, read where its blocks start: laws, and no code.
#![tactic(auto)]
