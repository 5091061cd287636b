// What the rows of a unit are padded from, and its classes worked out from. That all of it lies inside what is lent is known of the values, and asked of no function.
ghost use Rattle.std.specs.Prelude.{length};
ghost use Rattle.definition.specs.Calls.{lists_lent};
ghost use Rattle.units.specs.Windows.{Sources, LumaLie};

use definition::{Given, Lists, Operation};

// A unit that is not refused, its plane as it stands, and what is lent for it.
#[derive(Clone, Copy)]
pub struct Unit<'a> {
    pub op: Operation,
    pub given: Given,
    pub plane: &'a [u8],
    pub lent: &'a Lists<'a>,
    pub ghost inside: { Sources op given (lists_lent op lent.now) (length plane.now) },
}

// The luma of a chroma unit.
#[derive(Clone, Copy)]
pub struct LumaRows<'a> {
    pub given: Given,
    pub lent: &'a Lists<'a>,
    pub ghost inside: { LumaLie given (length lent.now.luma.now) (length lent.now.luma_top.now) (length lent.now.luma_bottom.now) },
}
