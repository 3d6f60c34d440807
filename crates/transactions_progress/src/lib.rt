// When what is due can be written out, and that a recovery then writes it out: definitions in specs/, theorems in proofs/. There is no code here.
#![tactic(auto)]
