// The three demands, each as one statement over every operation: they stand in specs/, their terms in proofs/, and there is no code.
#![tactic(auto)]
