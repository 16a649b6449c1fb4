// What the calls of the static library keep and give, as theorems over the meanings: all of it is in proofs/, and there is no code.

#![tactic(auto)]
