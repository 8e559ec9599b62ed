// Notation and laws that every crate shares: specs/ and proofs/ hold them, and there is no code.
#![tactic(auto)]
