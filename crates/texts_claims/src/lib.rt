// What is claimed of structured texts, and worked cases: no function.
#![tactic(auto)]
