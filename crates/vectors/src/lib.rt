// Units and planes that the Rust restored, against the definition: in specs/, and there is no code. `compare vectors 1 3` makes the file.
#![tactic(auto)]
