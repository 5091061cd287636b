// The bytes that the taps around a sample reach: so many rows and columns on all sides. Ten indices lead to the rows, and the row of the sample itself is
// that of index MID: the fifth of luma's nine, the third of chroma's five.
ghost use Rattle.std.specs.Prelude.{◌≡◌, ◌+◌, ◌*◌, ◌<◌, ◌≤◌, pos, nat_abs};
ghost use Rattle.definition.specs.Rows.{flat_around, row_bytes};
ghost use Rattle.definition.specs.Sample.{centre};
ghost use Rattle.filter.specs.Windows.{RowsReached, PairAt, start_limit};

use crate::taps::moved;
use definition::{INDEX_COUNT, ROW_BYTES};

// Ten rows in one array.
#[derive(Clone, Copy)]
pub struct Rows<'a, const MID: usize> {
    pub bytes: &'a [u8],
    pub indices: &'a [usize; INDEX_COUNT],
    ghost inside: { RowsReached 0 row_bytes bytes.now indices.now },
    ghost mid: { MID ≤ 4 },
}

impl<'a, const MID: usize> Rows<'a, MID> {
    // Eight samples of its row, from byte `at` on.
    pub fn eight(&self, at: usize) -> Eight<'a, MID>
        requires { (MID ≤ at) × (at + 8 + MID ≤ row_bytes) }
        ensures { (result.rows ≡ self.now) × (result.at ≡ at) }
    {
        Eight { rows: *self, at }
    }
}

// Eight samples side by side.
#[derive(Clone, Copy)]
pub struct Eight<'a, const MID: usize> {
    rows: Rows<'a, MID>,
    at: usize,
    ghost inside: { (MID ≤ at) × (at + 8 + MID ≤ row_bytes) },
}

impl<'a, const MID: usize> Eight<'a, MID> {
    // What lies around the j-th of them.
    #[inline(always)]
    pub fn around(&self, j: usize) -> Around<'a, MID>
        requires { j < 8 }
        ensures { (result.rows ≡ self.now.rows) × (result.col ≡ self.now.at + j) }
    {
        Around {
            rows: self.rows,
            col: self.at + j,
        }
    }
}

// Around one sample, which is byte col of its row.
#[derive(Clone, Copy)]
pub struct Around<'a, const MID: usize> {
    rows: Rows<'a, MID>,
    col: usize,
    ghost inside: { (MID ≤ col) × (col + MID < row_bytes) },
}

impl<'a, const MID: usize> Around<'a, MID> {
    // The byte dy rows and dx columns from the sample.
    #[inline(always)]
    fn byte_at(&self, dy: i8, dx: i8) -> u8
        requires { (nat_abs dy ≤ MID) × (nat_abs dx ≤ MID) }
        ensures { result ≡ flat_around 0 row_bytes MID self.now.rows.bytes.now self.now.rows.indices.now self.now.col dy dx }
    {
        let row = self.rows.indices[moved(MID, dy)];
        self.rows.bytes[ROW_BYTES * row + moved(self.col, dx)]
    }

    // The sum of the bytes at (+dy, +dx) and at (-dy, -dx) from the sample.
    #[inline(always)]
    pub fn pair_at(&self, dy: i8, dx: i8) -> u32
        requires { (nat_abs dy ≤ MID) × (nat_abs dx ≤ MID) }
        ensures { PairAt (flat_around 0 row_bytes MID self.now.rows.bytes.now self.now.rows.indices.now self.now.col) dy dx result }
    {
        let a = self.byte_at(dy, dx);
        let b = self.byte_at(0 - dy, 0 - dx);
        u32::from(a) + u32::from(b)
    }

    // The sample itself.
    #[inline(always)]
    pub fn centre(&self) -> u8
        ensures { result ≡ centre (flat_around 0 row_bytes MID self.now.rows.bytes.now self.now.rows.indices.now self.now.col) }
    {
        self.byte_at(0, 0)
    }

    // 128 times the sample, from which the luma and chroma filters start.
    #[inline(always)]
    pub fn ns_start(&self) -> i32
        ensures { (result ≡ pos (128 * centre (flat_around 0 row_bytes MID self.now.rows.bytes.now self.now.rows.indices.now self.now.col))) × (nat_abs result ≤ start_limit) }
    {
        128 * i32::from(self.centre())
    }
}
