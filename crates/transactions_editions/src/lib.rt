// Whether a translation is current, over transactions: definitions in specs/, theorems in proofs/. There is no code here.
#![tactic(auto)]
