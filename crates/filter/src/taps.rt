// What the three runs share: whether they stay inside, where a tap leads, what it adds, and the rounding.
ghost use Rattle.std.specs.Prelude.{◌≡◌, ◌+◌, ◌^◌, ◌<◌, ◌≤◌, pos, nat_abs, ◌+ℤ◌};
ghost use Rattle.definition.specs.Answers.{status_from};
ghost use Rattle.definition.specs.Numbers.{clip_to};
ghost use Rattle.definition.specs.Rows.{outside_unless};
ghost use Rattle.definition.specs.Sample.{limit8, rounded};
ghost use Rattle.definition.specs.Leaves.{run_status};
ghost use Rattle.filter.specs.Windows.{own_inside};

use definition::{INDEX_COUNT, ROW_BYTES, ROWS_SIZE, Refusal, SAMPLE_LIMIT};

// The largest sample, 255, in the width that sums are taken in.
pub const LIMIT: i32 = SAMPLE_LIMIT as i32;

// v clipped to a sample, as an i32: so the compiler narrows with saturation.
fn clipped(v: i32) -> i32
    ensures { result ≡ pos (clip_to limit8 v) }
{
    v.clamp(0, LIMIT)
}

// (s + 64) >> 7, clipped to a byte, which `as` narrows it to: the rounding of all three filters.
pub fn round_clip(s: i32) -> u8
    requires { nat_abs s < 2 ^ 30 }
    ensures { result ≡ rounded limit8 s }
{
    let v = (s + 64) >> 7;
    clipped(v) as u8
}

// Whether the n samples from byte col0 on lie in the destination, and with e columns on both sides in the rows: `size` bytes, to
// which indices up to a limit lead. Two tests of fewer parameters were tried, what is lent and the columns: chroma units of 4 by 4 took 4 % more.
pub fn own_inside(
    dst: usize,
    rows: usize,
    indices: &[usize; INDEX_COUNT],
    col0: usize,
    n: usize,
    size: usize,
    limit: usize,
    e: usize,
) -> bool
    ensures { result ≡ own_inside dst rows indices.now col0 n size limit e }
{
    n <= dst
        && size <= rows
        && bounds::indices_up_to(indices, limit)
        && e <= col0
        && bounds::room(col0, n, e, ROW_BYTES)
}

pub fn outside_unless(inside: bool) -> Result<(), Refusal>
    ensures { status_from result ≡ outside_unless inside }
{
    if inside {
        Ok(())
    } else {
        Err(Refusal::Outside)
    }
}

#[tactic(auto, unfolding(definition::specs::Leaves::run_status))]
pub fn run_status(
    dst: usize,
    rows: usize,
    indices: &[usize; INDEX_COUNT],
    col0: usize,
    n: usize,
) -> Result<(), Refusal>
    ensures { status_from result ≡ run_status dst rows indices.now col0 n }
{
    outside_unless(own_inside(dst, rows, indices, col0, n, ROWS_SIZE, 9, 4))
}

// The place d further than at.
pub fn moved(at: usize, d: i8) -> usize
    requires { (nat_abs d ≤ at) × (at < 2 ^ 20) }
    ensures { result ≡ nat_abs (pos at +ℤ d) }
{
    at.wrapping_add_signed(isize::from(d))
}
