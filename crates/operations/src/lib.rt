// What an operation is, and what the edge bits of a unit say of the rows around it. Nothing is lent.
#![tactic(auto)]

ghost use Rattle.std.specs.Prelude.{◌≡◌, ◌^◌, ◌≤◌, ◌<◌, min};
ghost use Rattle.definition.specs.Units.{border, number_of, operation_of, classed, chromatic, set_size};
ghost use Rattle.definition.specs.Refusals.{top_rows};

use bounds::is_set;
use definition::Operation;

// The border e of an operation.
pub fn border_of(op: Operation) -> usize
    ensures { (result ≡ border op) × (result ≤ 4) }
{
    match op {
        Operation::Luma | Operation::User | Operation::Pretrained => 4,
        Operation::Chroma => 2,
    }
}

// Its number in a state. `as` is how an enum gives its number.
pub fn number_of(op: Operation) -> usize
    ensures { result ≡ number_of op }
{
    op as usize
}

// The operation that has a number. The four arms are the enum's numbers.
pub fn operation_of(number: usize) -> Option<Operation>
    ensures { result ≡ operation_of number }
{
    match number {
        1 => Some(Operation::Luma),
        2 => Some(Operation::User),
        3 => Some(Operation::Pretrained),
        4 => Some(Operation::Chroma),
        _ => None,
    }
}

// Whether it has classes.
pub fn is_classed(op: Operation) -> bool
    ensures { result ≡ classed op }
{
    matches!(op, Operation::User | Operation::Pretrained)
}

// Whether it reads luma rows beside its own.
pub fn is_chroma(op: Operation) -> bool
    ensures { result ≡ chromatic op }
{
    op == Operation::Chroma
}

// The numbers of a filter, or of a set of filters: four arms, as the table has them.
pub fn set_size(op: Operation) -> usize
    ensures { (result ≡ set_size op) × (0 < result) }
{
    match op {
        Operation::Luma => 16,
        Operation::User => 18,
        Operation::Pretrained => 13,
        Operation::Chroma => 18,
    }
}

// Saved rows that are padded from above.
pub fn top_rows(op: Operation, edges: usize) -> usize
    ensures { (result ≡ top_rows op edges) × (result ≤ 4) }
{
    if is_set(edges, 4) {
        border_of(op)
    } else if is_set(edges, 2) {
        2
    } else {
        0
    }
}

// Luma rows or columns to one of chroma, by the subsampling of that side, which is 0 or 1.
pub fn luma_step(ss: usize) -> usize
    ensures { (result ≡ 2 ^ min ss 1) × (0 < result) × (result ≤ 2) }
{
    if ss == 0 { 1 } else { 2 }
}
