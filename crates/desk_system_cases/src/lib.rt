// Worked runs of the system of desks, runs that break one rule each, and its theorems used at the edges of their hypotheses. It has definitions and theorems and no function.
#![tactic(auto)]
