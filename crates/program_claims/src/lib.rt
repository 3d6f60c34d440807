// What is claimed of a run. The crate has no functions: the claims stand in specs/, their theorems in proofs/.
#![tactic(auto)]
