// No code: what the firm tells its customers. See specs/ and proofs/.
#![tactic(auto)]
