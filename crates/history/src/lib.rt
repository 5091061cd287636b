// A unit that is restored in many advances, whatever its operation: what holds after any list of them in specs/, the one theorem in proofs/, and there is no code.
#![tactic(auto)]
