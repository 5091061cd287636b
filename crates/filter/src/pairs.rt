// Pairs of samples around a centre, by a table of where the first of each lies: luma's 16 and chroma's own six.
ghost use Rattle.std.specs.Prelude.{ℕ, ◌*◌, ◌≤◌, pos, nat_abs};
ghost use Rattle.definition.specs.Rows.{flat_around, row_bytes};
ghost use Rattle.definition.specs.Sample.{dy_of, dx_of, centre, pair_of};
ghost use Rattle.definition.specs.Leaves.{coefficients};

use crate::around::Around;
use crate::sums::Taps;

// The first COUNT numbers of a filter belong to the pairs around one sample. The table is a constant, which the compiler folds away.
#[derive(Clone, Copy)]
pub struct PairTaps<'a, const MID: usize, const COUNT: usize, const SIZE: usize> {
    pub around: Around<'a, MID>,
    pub filter: &'a [i8; SIZE],
    pub table: [[i8; 2]; COUNT],
    ghost numbered: { COUNT ≤ SIZE },
    ghost near: { (k : ℕ) → (nat_abs (dy_of table k) ≤ MID) × (nat_abs (dx_of table k) ≤ MID) },
}

impl<'a, const MID: usize, const COUNT: usize, const SIZE: usize> Taps
    for PairTaps<'a, MID, COUNT, SIZE> {
    ghost count = { λ s. COUNT };

    ghost first = { λ s. pos (128 * centre (flat_around 0 row_bytes MID s.around.rows.bytes.now s.around.rows.indices.now s.around.col)) };

    ghost samples = { λ s. pair_of (flat_around 0 row_bytes MID s.around.rows.bytes.now s.around.rows.indices.now s.around.col) s.table };

    ghost base = { λ s. 2 * centre (flat_around 0 row_bytes MID s.around.rows.bytes.now s.around.rows.indices.now s.around.col) };

    ghost numbers = { λ s. coefficients s.filter.now };

    fn start(&self) -> i32 {
        self.around.ns_start()
    }

    fn sample(&self, k: usize) -> u32 {
        let t = self.table[k];
        self.around.pair_at(t[0], t[1])
    }

    fn base(&self) -> u32 {
        2 * u32::from(self.around.centre())
    }

    fn number(&self, k: usize) -> i16 {
        i16::from(self.filter[k])
    }
}
