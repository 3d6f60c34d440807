// One desk's transactions over the store, its log and everybody else's requests as one system: definitions in specs/, theorems in proofs/. There is no code here.
#![tactic(auto)]
