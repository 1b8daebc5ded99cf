// No functions: the cases that document 01 reckons by hand stand in specs/, their proof in proofs/.

#![tactic(auto)]
