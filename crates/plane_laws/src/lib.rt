// Laws of a plane and of the units that it is cut into, which the walk over them cites: they stand in proofs/, and there is no code.
#![tactic(auto)]
