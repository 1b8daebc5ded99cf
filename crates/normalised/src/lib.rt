// A table with its cost entries normalised: definitions and theorems, no functions.

#![tactic(auto)]
