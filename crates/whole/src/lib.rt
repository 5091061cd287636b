// looprestoration.rs: the whole-unit operations, ns_wiener_single_y_8bpc, ns_wiener_multi_8bpc, pc_wiener_8bpc and ns_wiener_single_uv_8bpc. All four
// are one function, which opens a unit and advances it by all its rows.
#![tactic(auto)]

ghost use Rattle.std.specs.Prelude.{◌≡◌};
ghost use Rattle.definition.specs.Calls.{lists_lent};
ghost use Rattle.whole.specs.Whole.{restored_of, Whole};

use definition::{Given, Lists, Operation, Refusal};

// What a whole unit, or a plane, hands C.
#[repr(C)]
#[derive(Clone, Copy)]
pub struct Restored {
    pub status: u8,
    pub pieces: usize,
}

impl From<Result<usize, Refusal>> for Restored {
    ghost from_gives = { λ r restored. restored ≡ restored_of r };

    fn from(r: Result<usize, Refusal>) -> Restored {
        match r {
            Ok(pieces) => Restored { status: 0, pieces },
            Err(refusal) => Restored {
                status: refusal.into(),
                pieces: 0,
            },
        }
    }
}

// A whole unit of any operation: its pieces, or why it is refused.
pub fn restore(op: Operation, g: Given, p: &mut [u8], lent: &Lists) -> Result<usize, Refusal>
    ensures { Whole op (restored_of result) g (lists_lent op lent.now) p.old p.new }
{
    let mut state = units::open(op, g, &*p, &*lent)?;
    let unit_pieces = state.advance_by(op, g.h, p, lent)?;
    Ok(unit_pieces)
}
