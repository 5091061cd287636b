// A unit whole, or opened and restored in eight advances.
use crate::lists::Unit;
use crate::numbers::below;
use definition::{HEIGHT_LIMIT, Lists, Refusal};

const ADVANCES: usize = 8;

// The rows of advance i of unit k: a few, or none, and at last all that remain.
fn rows(unit: &Unit, i: usize) -> usize {
    if i < ADVANCES - 1 {
        below(unit.k.wrapping_add(i), 18, 10)
    } else {
        HEIGHT_LIMIT
    }
}

// Each set of edge bits comes both ways for each operation.
fn in_advances(unit: &Unit) -> bool {
    (unit.k / 4 + unit.k / 256) % 2 == 1
}

fn by_advances(unit: &Unit, p: &mut [u8], lent: &Lists) -> Result<usize, Refusal> {
    let mut state = units::open(unit.op, unit.given, p, lent)?;
    let mut pieces: usize = 0;
    for i in 0..ADVANCES {
        let more = state.advance_by(unit.op, rows(unit, i), p, lent)?;
        pieces = pieces.saturating_add(more);
    }
    Ok(pieces)
}

pub fn restored(unit: &Unit, p: &mut [u8], lent: &Lists) -> Result<usize, Refusal> {
    if in_advances(unit) {
        by_advances(unit, p, lent)
    } else {
        whole::restore(unit.op, unit.given, p, lent)
    }
}
