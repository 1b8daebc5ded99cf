// Demand 3 of document 01: definitions of a history and the claim over it; no functions.

#![tactic(auto)]
