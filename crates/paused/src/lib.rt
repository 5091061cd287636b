// A luma unit in two advances: it is broken off after `count` rows, the first sample of its rectangle is written over, and the rest is restored.
// Shows how a caller uses demand 3: what this function promises is proved from the theorem of the histories, and from nothing of the filter.
#![tactic(auto)]

ghost use Rattle.std.specs.Prelude.{◌≡◌, cond, ◌<◌, eqb, length, set};
ghost use Rattle.definition.specs.declared.Operation.TheVariants.{Luma};
ghost use Rattle.definition.specs.Calls.{lists_lent};
ghost use Rattle.paused.specs.Paused.{PausedUnit};

use definition::{Given, Lists, Operation, Refusal};

// The pieces of the first advance, and of the one that restores the rest.
#[derive(Clone, Copy)]
pub struct Paused {
    pub first: usize,
    pub rest: usize,
}

// Where no row is finished yet nothing may be written over.
fn write_over(p: &mut [u8], at: usize, v: u8, count: usize)
    requires { at < length p.old }
    ensures { p.new ≡ cond (eqb count 0) p.old (set p.old at v) }
{
    if count == 0 {
        return;
    }
    p[at] = v;
}

// A unit that was opened is not refused again.
pub fn restore_paused(
    g: Given,
    p: &mut [u8],
    lent: &Lists,
    count: usize,
    v: u8,
) -> Result<Paused, Refusal>
    ensures { PausedUnit result g (lists_lent Luma lent.now) count v p.old p.new }
{
    let mut state = units::open(Operation::Luma, g, &*p, &*lent)?;
    let first = state.advance_by(Operation::Luma, count, p, lent).unwrap();
    write_over(p, g.off, v, count);
    let rest = state.advance_by(Operation::Luma, g.h, p, lent).unwrap();
    Ok(Paused { first, rest })
}
