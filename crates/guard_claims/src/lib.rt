// What is claimed of the guard of one card. Definitions and theorems alone; there is nothing to run.
#![tactic(auto)]
