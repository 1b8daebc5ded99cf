// The busy-window argument: definitions and theorems, no functions.

#![tactic(auto)]
