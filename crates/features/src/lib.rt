// The features of a block, or of all blocks of a block row at once. The bends are added up down each column first, and a block's feature is the sum of its six
// columns: so what two blocks share is worked out once, and the compiler takes eight columns at a time.
#![tactic(auto)]

ghost use Rattle.std.specs.Prelude.{◌≡◌, ℕ, [], ◌∷◌, ◌+◌, ◌*◌, ◌^◌, ◌<◌, ◌≤◌, pos, negsuc, nat_abs, ◌+ℤ◌, ◌-ℤ◌, length, get_or, sum, IfOk, IsTrue};
ghost use Rattle.definition.specs.Answers.{status_from};
ghost use Rattle.definition.specs.Numbers.{sum_n};
ghost use Rattle.definition.specs.Limits.{block_column_limit};
ghost use Rattle.definition.specs.Rows.{row_bytes, index_count};
ghost use Rattle.definition.specs.ClassIndex.{last_column, features_of};
ghost use Rattle.definition.specs.Leaves.{block_flat, rows_status, row_features_status, block_features_status, feature_row, feature_at};
ghost use Rattle.features.specs.Columns.{column_bend, column_sum, bend_limit, column_limit, column_count, TenRows};

use definition::{
    BLOCK_COLUMN_LIMIT, INDEX_COUNT, LAST_COLUMN, ROW_BYTES, ROWS_SIZE, Refusal, WIDTH_LIMIT,
};

// The columns that the blocks of the widest row look at are four more than its samples: rounded up to a multiple of eight.
const COLUMN_COUNT: usize = WIDTH_LIMIT + 8;

// | up - 2 mid + down |
fn bend_of(up: u8, mid: u8, down: u8) -> u16
    ensures { (result ≡ nat_abs (pos up -ℤ pos (2 * mid) +ℤ pos down)) × (result ≤ bend_limit) }
{
    let sides = u16::from(up) + u16::from(down);
    let twice = 2 * u16::from(mid);
    sides.abs_diff(twice)
}

fn total(columns: &[u16]) -> u16
    requires { sum columns.now < 2 ^ 16 }
    ensures { result ≡ sum columns.now }
{
    columns.iter().sum()
}

// The sum of the six columns of block bx: from one before its first column, which is byte 6 + 4 bx.
#[tactic(auto, unfolding(definition::specs::Numbers::sum_n))]
fn six(columns: &[u16; COLUMN_COUNT], bx: usize) -> u16
    requires { (bx ≤ last_column) × ((j : ℕ) → j < 6 → get_or columns.now (2 + 4 * bx + j) 0 ≤ column_limit) }
    ensures { result ≡ sum_n 6 (λ j. get_or columns.now (2 + 4 * bx + j) 0) }
{
    let first = 2 + 4 * bx;
    total(&columns[first..first + 6])
}

// Where a bend's outer samples stand: the one above is taken from byte a on and the one below from byte z on, where the middle one is from byte 3 on.
#[derive(Clone, Copy)]
struct Direction {
    a: usize,
    z: usize,
    ghost mirrored: { (a ≤ 4) × (z ≤ 4) × (a + z ≡ 6) },
}

impl Direction {
    #[inline(always)]
    fn vertical() -> Direction
        ensures { result.a ≡ 3 }
    {
        Direction { a: 3, z: 3 }
    }

    #[inline(always)]
    fn falling() -> Direction
        ensures { result.a ≡ 4 }
    {
        Direction { a: 4, z: 2 }
    }

    #[inline(always)]
    fn rising() -> Direction
        ensures { result.a ≡ 2 }
    {
        Direction { a: 2, z: 4 }
    }
}

// Ten rows in one array, and the indices that lead to them.
#[derive(Clone, Copy)]
struct Rows<'a> {
    bytes: &'a [u8],
    indices: &'a [usize; INDEX_COUNT],
    ghost inside: { TenRows bytes.now indices.now },
}

impl<'a> Rows<'a> {
    // `inside`: that the blocks lie inside as well.
    #[tactic(auto, using(crate::proofs::Statuses::rows_inside), unfolding(definition::specs::Leaves::rows_status))]
    fn lent(
        bytes: &'a [u8],
        indices: &'a [usize; INDEX_COUNT],
        inside: bool,
    ) -> Result<Rows<'a>, Refusal>
        ensures status_value { status_from result ≡ rows_status (length bytes.now) indices.now inside }
        ensures rows_value { IfOk result (λ rows. (rows.bytes.now ≡ bytes.now) × (rows.indices.now ≡ indices.now) × IsTrue inside) }
    {
        if bytes.len() < ROWS_SIZE || !bounds::indices_up_to(indices, 9) || !inside {
            return Err(Refusal::Outside);
        }
        Ok(Rows { bytes, indices })
    }

    // The sample in column col of the row that index k leads to.
    fn at(&self, k: usize, col: usize) -> u8
        requires { (k < index_count) × (col < row_bytes) }
        ensures { result ≡ get_or self.now.bytes.now (row_bytes * get_or self.now.indices.now k 0 + col) 0 }
    {
        self.bytes[ROW_BYTES * self.indices[k] + col]
    }

    // The bend around row i of six, counted from one before the block row's first: from column a of the row above it, column m of its own, and column z of the row below.
    fn bend_at(&self, i: usize, a: usize, m: usize, z: usize) -> u16
        requires { (i < 6) × (a < row_bytes) × (m < row_bytes) × (z < row_bytes) }
        ensures { (result ≡ column_bend self.now.bytes.now self.now.indices.now a m z i) × (result ≤ bend_limit) }
    {
        bend_of(self.at(i + 2, a), self.at(i + 3, m), self.at(i + 4, z))
    }

    // The bends of all six rows.
    #[tactic(auto, unfolding(definition::specs::Numbers::sum_n))]
    fn column_sum(&self, a: usize, m: usize, z: usize) -> u16
        requires { (a < row_bytes) × (m < row_bytes) × (z < row_bytes) }
        ensures { (result ≡ column_sum self.now.bytes.now self.now.indices.now a m z) × (result ≤ column_limit) }
    {
        let mut sum = 0;
        for i in 0..6 {
            sum += self.bend_at(i, a, m, z);
        }
        sum
    }

    // The sums of columns m to n - 1, counted from byte 3 of the rows, in one direction.
    fn column_sums(&self, d: Direction, m: usize, n: usize) -> [u16; COLUMN_COUNT]
        requires { (m ≤ n) × (n ≤ column_count) }
        ensures { (k : ℕ) → m ≤ k → k < n → (get_or result k 0 ≡ column_sum self.now.bytes.now self.now.indices.now (d.a + k) (3 + k) (d.z + k)) × (get_or result k 0 ≤ column_limit) }
    {
        let mut out = [0; COLUMN_COUNT];
        for k in m..n {
            out[k] = self.column_sum(d.a + k, 3 + k, d.z + k);
        }
        out
    }

    // One feature of n blocks. They look at 4 n + 4 columns, rounded up to a multiple of eight, so that none is left over.
    fn feature_row(&self, d: Direction, n: usize) -> [u16; BLOCK_COLUMN_LIMIT]
        requires { n ≤ block_column_limit }
        ensures { result ≡ feature_row n (feature_at self.now.bytes.now self.now.indices.now (pos d.a -ℤ pos 3)) }
    {
        let columns = self.column_sums(d, 0, 8 * (4 * n + 4).div_ceil(8));
        let mut out = [0; BLOCK_COLUMN_LIMIT];
        for bx in 0..n {
            out[bx] = six(&columns, bx);
        }
        out
    }

    // One feature of the block in column bx. Eight columns are summed, as they are taken at a time; six are the block's.
    fn feature(&self, d: Direction, bx: usize) -> u16
        requires { bx ≤ last_column }
        ensures { result ≡ feature_at self.now.bytes.now self.now.indices.now (pos d.a -ℤ pos 3) bx }
    {
        let columns = self.column_sums(d, 2 + 4 * bx, 10 + 4 * bx);
        six(&columns, bx)
    }
}

// The three features of the block in column bx: vertical, then the two diagonals. This and the next are each a function of docs/SCOPE.md (Leaves).
pub fn pcw_features(
    rows: &[u8],
    indices: &[usize; INDEX_COUNT],
    bx: usize,
) -> Result<[u16; 3], Refusal>
    ensures status_value { status_from result ≡ block_features_status (length rows.now) indices.now bx }
    ensures sums_value { IfOk result (λ sums. sums ≡ features_of (block_flat rows.now indices.now bx)) }
{
    let rows = Rows::lent(rows, indices, bx <= LAST_COLUMN)?;
    let vertical = rows.feature(Direction::vertical(), bx);
    let falling = rows.feature(Direction::falling(), bx);
    let rising = rows.feature(Direction::rising(), bx);
    Ok([vertical, falling, rising])
}

// .. and of each of the first n blocks of a block row.
pub fn row_features(
    rows: &[u8],
    indices: &[usize; INDEX_COUNT],
    n: usize,
) -> Result<[[u16; BLOCK_COLUMN_LIMIT]; 3], Refusal>
    ensures status_value { status_from result ≡ row_features_status (length rows.now) indices.now n }
    ensures rows_value { IfOk result (λ r. r ≡ feature_row n (feature_at rows.now indices.now (pos 0)) ∷ feature_row n (feature_at rows.now indices.now (pos 1)) ∷ feature_row n (feature_at rows.now indices.now (negsuc 0)) ∷ []) }
{
    let rows = Rows::lent(rows, indices, n <= BLOCK_COLUMN_LIMIT)?;
    let vertical = rows.feature_row(Direction::vertical(), n);
    let falling = rows.feature_row(Direction::falling(), n);
    let rising = rows.feature_row(Direction::rising(), n);
    Ok([vertical, falling, rising])
}
