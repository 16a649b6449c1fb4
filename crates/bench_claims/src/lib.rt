// What the calls on a bench promise, as theorems over the meanings: all of it is in proofs/, and there is no code.

#![tactic(auto)]
