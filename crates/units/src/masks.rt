// The masks and the pieces of a unit's rows.
ghost use Rattle.std.specs.Prelude.{◌≡◌, ◌+◌, ◌≤◌, ◌<◌, length};
ghost use Rattle.definition.specs.Limits.{height_limit, block_column_limit};
ghost use Rattle.definition.specs.Blocks.{pieces_of, mask_at};

use definition::SIDE;

// Of four numbers for each block row the first is used.
pub fn mask_of_row(skip: &[u16], y: usize) -> u16
    requires { y < length skip.now }
    ensures { result ≡ mask_at skip.now y }
{
    skip[y / SIDE * SIDE]
}

// The pieces of n rows from row k on: the loop is the definition's count of one row more.
pub fn pieces_of_rows(skip: &[u16], bw: usize, k: usize, n: usize) -> usize
    requires { (bw ≤ block_column_limit) × (k + n ≤ height_limit) × (k + n ≤ length skip.now) }
    ensures { result ≡ pieces_of skip.now bw k n }
{
    let mut pieces = 0;
    for i in 0..n {
        let mask = mask_of_row(skip, k + i);
        pieces += blocks::pieces_of_row(mask, bw).unwrap();
    }
    pieces
}
