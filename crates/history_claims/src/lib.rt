// What is claimed of the history engine, and of commands for different cards: see specs/.
#![tactic(auto)]
