// What a desk has begun it can finish, by its own steps: definitions in specs/, theorems in proofs/. There is no code here.
#![tactic(auto)]
