// What is claimed of the program, as theorems over the meanings of `plan`, `reads` and `program`: all of it is in proofs/, and there is no code.

#![tactic(auto)]
