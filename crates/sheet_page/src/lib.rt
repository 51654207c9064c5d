// The definition of the sheet stands in specs/: there is no code here.
#![tactic(auto)]
