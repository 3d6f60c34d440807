// What is claimed of the steps of a transaction: definitions in specs/, theorems in proofs/. No function stands here.
#![tactic(auto)]
