// Laws that the proofs of several crates cite: they stand in proofs/, and there is no code.
#![tactic(auto)]
