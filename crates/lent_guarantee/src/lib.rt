// Demand 3 of document 01 for a machine whose state is handed on in lent bytes; no functions.

#![tactic(auto)]
