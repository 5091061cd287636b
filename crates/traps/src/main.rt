// The traps of docs/SCOPE.md, 'Samples', each as a unit whose samples the wrong reading would change, and the limits of w and h.
// The expected bytes, in the file stdout, are the Rust's: `compare traps` writes them, from the same formulas, and holds each
// trap's unit to give other bytes where the Rust is lent what a wrong program would read.
#![tactic(auto)]

mod chroma;
mod classed;
mod lists;
mod luma;

use output::Output;

// No error comes of these: `Output` passes over what a write can't take.
fn main() {
    let _ = luma::all(&Output);
    let _ = classed::all(&Output);
    let _ = chroma::all(&Output);
}
