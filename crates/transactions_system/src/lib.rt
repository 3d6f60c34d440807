// Desks by the rules of proposals that also have transactions, over one store: definitions in specs/, theorems in proofs/. There is no code here.
#![tactic(auto)]
