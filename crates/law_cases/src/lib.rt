// No code: document 01's checked files, by the definitions. See specs/Cases.antt and proofs/Closed.antt.
#![tactic(auto)]
