// No code: what may be added to a file, and that it changes nothing. See specs/Additions.antt and proofs/.
#![tactic(auto)]
