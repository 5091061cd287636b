// A model of the code that restores a unit row by row, and the laws that lead from it to the definition: in proofs/, and there is no code.
#![tactic(auto)]
