// What is claimed of a redo log: claims, worked cases and their proofs, no function.
#![tactic(auto)]
