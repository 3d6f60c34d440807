// What is claimed of a stream: definitions and proofs, no function.
#![tactic(auto)]
