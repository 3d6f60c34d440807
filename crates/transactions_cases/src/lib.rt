// Worked runs of desks with transactions, by computation on bytes: definitions in specs/, proofs in proofs/. There is no code here.
#![tactic(auto)]
