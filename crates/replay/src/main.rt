// Units of all four operations, restored here and by the Rust: 768 of them, with every set of edge bits, pair and kind.
// Half of them are opened and restored in eight advances. For each the program writes its number, operation, size and
// edges, the status, the pieces, and a digest (FNV-1a, 64 bits) of every byte of the plane that it was lent.
// The expected lines, in the file stdout, are the Rust's: `compare replay` writes them, from the same generator, which has no
// seed but the unit's number.
#![tactic(auto)]

mod lists;
mod numbers;
mod restore;

use definition::MAP_SIZE;
use lists::{LIST_LIMIT, POOL_SIZE, Unit};
use numbers::Numbers;
use output::Output;
use std::io;

const UNITS: usize = 768;

// The plane is as long as the unit needs it, and not a byte longer.
fn replay(
    rt: &impl Print,
    k: usize,
    pool: &[u8; POOL_SIZE],
    map: &[u8; MAP_SIZE],
) -> io::Result<()> {
    let unit = Unit::new(k);
    let numbers = Numbers::new(k);
    let part = unit.plane(pool);
    let mut space = [0u8; LIST_LIMIT];
    let plane = &mut space[..part.len()];
    plane.copy_from_slice(part);
    let restored = restore::restored(&unit, plane, &unit.lists(pool, map, &numbers));
    let (status, pieces) = match restored {
        Ok(pieces) => (0, pieces),
        Err(refusal) => (u8::from(refusal), 0),
    };
    println!(rt;
        "{unit} status={status} pieces={pieces} plane={:016x}",
        numbers::digest(plane)
    )
}

fn main() {
    // Filled where they stand: `array::from_fn` laid them on the stack two and three times.
    let mut pool = [0; POOL_SIZE];
    for i in 0..POOL_SIZE {
        pool[i] = numbers::sample(i);
    }
    let mut map = [0; MAP_SIZE];
    for i in 0..MAP_SIZE {
        map[i] = numbers::map_entry(i);
    }
    for k in 0..UNITS {
        // No error comes of it: `Output` passes over what a write can't take.
        let _ = replay(&Output, k, &pool, &map);
    }
}
