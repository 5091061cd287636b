// Laws of the text of a state, which its writer and its reader cite: they stand in proofs/, and there is no code.
#![tactic(auto)]
