// Numbers of f64, as definitions: no function.
#![tactic(auto)]
