// Recovery from a redo log, as a definition: claims and proofs, no function.
#![tactic(auto)]
