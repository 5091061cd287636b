// Laws of the card, which its reader and its answer cite: they stand in proofs/, and there is no code.
#![tactic(auto)]
