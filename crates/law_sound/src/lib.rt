// No code: what holds of any block and any row of the tables. See proofs/.
#![tactic(auto)]
