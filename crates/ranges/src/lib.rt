// Sums, searches and tests over the numbers below a number: definitions and laws, no functions.

#![tactic(auto)]
