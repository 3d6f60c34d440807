// Desks that follow the rules, the lock queues and the store as one system: definitions in specs/, theorems in proofs/. There is no code here.
#![tactic(auto)]
