// What is claimed of the lock queue, and trial n: definitions in specs/, theorems in proofs/. There is no code here.
#![tactic(auto)]
