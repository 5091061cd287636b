// What an opening hands back, whatever the operation.
ghost use Rattle.std.specs.Prelude.{◌≡◌, List, ℕ};
ghost use Rattle.definition.specs.Units.{Lent};
ghost use Rattle.definition.specs.Calls.{lists_lent};
ghost use Rattle.units.specs.Openings.{no_state, open_state, opened_of, Begun};
ghost use Rattle.units.specs.Padded.{lent_of};
ghost use Rattle.model.proofs.Opening.{open_rings};

use crate::State;
use crate::advance::sizes;
use crate::unit::{LumaRows, Unit};
use definition::{BLOCK_COLUMN_LIMIT, Given, INDEX_COUNT, Lists, Operation, Refusal, STATE_BYTES};
use operations::{border_of, is_chroma, number_of};

// The state of zeros.
pub fn none() -> State
    ensures { result ≡ no_state }
{
    State {
        op: 0,
        given: Given::default(),
        done: 0,
        next: 0,
        classes: [0u8; BLOCK_COLUMN_LIMIT],
        indices: [0usize; INDEX_COUNT],
        rows: [0u8; STATE_BYTES],
    }
}

// The indices of a unit before its first row.
fn first_indices(op: Operation, g: Given) -> [usize; INDEX_COUNT]
    ensures { (l : Lent) (p : List ℕ) → result ≡ (open_rings op g l p).idx }
{
    if is_chroma(op) {
        return crate::chroma::open_indices(g);
    }
    crate::rows::open_indices(op, g)
}

impl<'a> Unit<'a> {
    // Its padded rows, before its first row.
    fn first_rows(&self) -> [u8; STATE_BYTES]
        ensures { let u = self.now in result ≡ (open_rings u.op u.given (lent_of u) u.plane.now).slots }
    {
        let mut rows = self.open_rows();
        if is_chroma(self.op) {
            let luma = LumaRows {
                given: self.given,
                lent: self.lent,
            };
            luma.open_luma_rows(&mut rows);
        }
        rows
    }

    // Its state, before its first row.
    fn first_state(&self) -> State
        ensures { let u = self.now in result ≡ open_state u.op u.given (lent_of u) u.plane.now }
    {
        let e = border_of(self.op);
        State {
            op: number_of(self.op),
            given: self.given,
            done: 0,
            next: e + e,
            classes: [0u8; BLOCK_COLUMN_LIMIT],
            indices: first_indices(self.op, self.given),
            rows: self.first_rows(),
        }
    }
}

// A unit, opened over a plane that is not written.
pub fn open(op: Operation, g: Given, p: &[u8], lent: &Lists) -> Result<State, Refusal>
    ensures { Begun op (opened_of result) g (lists_lent op lent.now) p.now }
{
    refusals::unit_status(op, g, sizes(op, p, lent))?;
    let unit = Unit {
        op,
        given: g,
        plane: &*p,
        lent: &*lent,
    };
    Ok(unit.first_state())
}
