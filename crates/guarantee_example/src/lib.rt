// A table and a history that the claim of document 01's demand 3 speaks of; no functions.

#![tactic(auto)]
