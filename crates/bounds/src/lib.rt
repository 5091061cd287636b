// Tests of places against lengths, of bits, of sides and of subsampling, for all 64-bit numbers: nothing wraps.
#![tactic(auto)]

ghost use Rattle.std.specs.Prelude.{◌≡◌, ◌+◌, leb};
ghost use Rattle.definition.specs.Numbers.{bit_set};
ghost use Rattle.definition.specs.Refusals.{sized, bad_sampling, indices_up_to};

use definition::{INDEX_COUNT, SIDE};

// Whether at + a + b is at most len.
pub fn room(at: usize, a: usize, b: usize, len: usize) -> bool
    ensures { result ≡ leb (at + a + b) len }
{
    let end = at.checked_add(a).and_then(|end| end.checked_add(b));
    end.is_some_and(|end| end <= len)
}

// Whether the row indices are at most a limit.
pub fn indices_up_to(indices: &[usize; INDEX_COUNT], limit: usize) -> bool
    ensures { result ≡ indices_up_to limit indices.now }
{
    indices.iter().all(|index| *index <= limit)
}

// Whether bit k is 1. Edge bits are asked by their places, as the definition does: 0 left, 1 right, 2 top, 3 bottom, 4 and 5 integrated.
#[tactic(auto, using(crate::proofs::Bits::clear_above))]
pub fn is_set(m: usize, k: usize) -> bool
    ensures { result ≡ bit_set m k }
{
    k < 64 && (m >> k) % 2 == 1
}

// Whether a width or height is a multiple of a block's side, from one block up to its limit.
pub fn is_sized(n: usize, limit: usize) -> bool
    ensures { result ≡ sized limit n }
{
    n.is_multiple_of(SIDE) && (SIDE..=limit).contains(&n)
}

// Whether a pair of subsamplings or a kind of mixing is not one of the table's.
pub fn is_bad_sampling(ss_hor: usize, ss_ver: usize, kind: usize) -> bool
    ensures { result ≡ bad_sampling ss_hor ss_ver kind }
{
    1 < ss_hor || ss_hor < ss_ver || 2 < kind
}
