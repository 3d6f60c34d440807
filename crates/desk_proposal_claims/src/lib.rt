// What is claimed of proposals: definitions in specs/, theorems in proofs/. There is no code here.
#![tactic(auto)]
