// Chroma: six pairs around the centre, and twelve samples of luma around the luma that belongs to it.
ghost use Rattle.std.specs.Prelude.{true, ◌≡◌, ℕ, ◌+◌, ◌-◌, ◌*◌, ◌^◌, ◌<◌, ◌≤◌, pos, nat_abs, length, get_or};
ghost use Rattle.std.proofs.lemmas.List.Edits.{sets};
ghost use Rattle.definition.specs.Answers.{status_from};
ghost use Rattle.definition.specs.Rows.{tab, chroma_flat, row_bytes};
ghost use Rattle.definition.specs.Sample.{dy_of, dx_of, centre, ns_config_uv_from_y};
ghost use Rattle.definition.specs.Leaves.{coefficients, uv_status};
ghost use Rattle.filter.specs.Groups.{Small};
ghost use Rattle.filter.specs.Gathered.{every, Gatherable, Gathered, compact_at, compact_sum, compact_sample, compact_size, compact_end};

use crate::around::{Around, Eight};
use crate::pairs::PairTaps;
use crate::sums::{Summed, Taps};
use crate::taps::{moved, outside_unless, own_inside, round_clip};
use crate::turns::eight;
use definition::{INDEX_COUNT, LUMA_ROW_BYTES, LUMA_ROWS_AT, ROW_BYTES, Refusal, STATE_BYTES};
use tables::{WIENER_NS_CONFIG_UV, WIENER_NS_CONFIG_UV_FROM_Y};

// A row of gathered luma: eight bytes before it, so that eight samples can begin before the run does.
const COMPACT_BYTES: usize = ROW_BYTES + 8;

const COMPACT_SIZE: usize = 5 * COMPACT_BYTES;

// Where the last eight of such a row begin, and those of a row of chroma: their taps reach two columns further on both sides.
const LAST_GATHERED: usize = COMPACT_BYTES - 8 - 4;

pub const LAST_CHROMA_EIGHT: usize = ROW_BYTES - 8 - 2;

// One of the five rows of luma, at chroma's resolution: every `step`-th byte from `from` on, n of them, to byte `to` on.
fn gather_row(
    compact: &mut [u8; COMPACT_SIZE],
    to: usize,
    rows: &[u8],
    from: usize,
    step: usize,
    n: usize,
)
    requires n_bound { to + n ≤ compact_size }
    requires by_index { (j : ℕ) → j < n → from + j * step < length rows.now }
    ensures { compact.new ≡ sets compact.old to (tab n (every rows.now from step)) }
{
    for j in 0..n {
        compact[to + j] = rows[from + j * step];
    }
}

// The five rows of luma that n chroma samples read, from column `first` on. So the taps of luma have steps of one byte, which the
// compiler can take side by side.
pub fn gather(
    rows: &[u8],
    indices: &[usize; INDEX_COUNT],
    first: usize,
    step: usize,
    n: usize,
) -> [u8; COMPACT_SIZE]
    requires { Gatherable rows.now indices.now first step n }
    ensures { Gathered rows.now indices.now first step n 5 result }
{
    let mut compact = [0u8; COMPACT_SIZE];
    for k in 0..5 {
        let row = indices[5 + k];
        let from = LUMA_ROWS_AT + LUMA_ROW_BYTES * row + first;
        gather_row(&mut compact, COMPACT_BYTES * k + 8, rows, from, step, n + 4);
    }
    compact
}

// The byte dy rows and dx columns from the luma of sample x - 8.
fn compact_at(compact: &[u8; COMPACT_SIZE], x: usize, dy: i8, dx: i8) -> u8
    requires { (x < compact_end) × (nat_abs dy ≤ 2) × (nat_abs dx ≤ 2) }
    ensures { result ≡ compact_at compact.now x dy dx }
{
    let row = moved(2, dy);
    compact[COMPACT_BYTES * row + moved(x + 2, dx)]
}

// Its taps of luma, whose sum is added to that of its own: it starts from nothing.
#[derive(Clone, Copy)]
struct FromLumaTaps<'a> {
    compact: &'a [u8; COMPACT_SIZE],
    x: usize,
    filter: &'a [i8; 18],
    ghost inside: { x < compact_end },
}

impl<'a> Taps for FromLumaTaps<'a> {
    ghost count = { λ s. 12 };

    ghost first = { λ s. pos 0 };

    ghost samples = { λ s k. compact_at s.compact.now s.x (dy_of ns_config_uv_from_y k) (dx_of ns_config_uv_from_y k) };

    ghost base = { λ s. centre (compact_at s.compact.now s.x) };

    ghost numbers = { λ s k. coefficients s.filter.now (6 + k) };

    fn start(&self) -> i32 {
        0
    }

    fn sample(&self, k: usize) -> u32 {
        let t = WIENER_NS_CONFIG_UV_FROM_Y[k];
        u32::from(compact_at(self.compact, self.x, t[0], t[1]))
    }

    fn base(&self) -> u32 {
        u32::from(compact_at(self.compact, self.x, 0, 0))
    }

    fn number(&self, k: usize) -> i16 {
        let at = 6 + k;
        i16::from(self.filter[at])
    }
}

// The sum that one chroma sample rounds.
#[inline(always)]
fn uv_sum<const BITS: usize>(
    around: Around<'_, 2>,
    compact: &[u8; COMPACT_SIZE],
    x: usize,
    filter: &[i8; 18],
) -> i32
    requires x_bound { x < compact_end }
    requires small { BITS ≡ 16 → Small 18 filter.now }
    ensures value { result ≡ compact_sum (chroma_flat around.entry.rows.bytes.now around.entry.rows.indices.now around.entry.col) (compact_at compact.now x) (coefficients filter.now) }
    ensures bound { nat_abs result < 2 ^ 30 }
{
    let own = PairTaps::<'_, 2, 6, 18> {
        around,
        filter,
        table: WIENER_NS_CONFIG_UV,
    };
    let of_luma = FromLumaTaps { compact, x, filter };
    let own_sum = Summed::<'_, BITS, PairTaps<'_, 2, 6, 18>> { taps: &own }.six();
    own_sum + Summed::<'_, BITS, FromLumaTaps<'_>> { taps: &of_luma }.twelve()
}

// Eight chroma samples, whose luma is gathered from sample x - 8 on; `small` is written out by the caller.
#[inline(always)]
pub fn uv_eight(
    samples: Eight<'_, 2>,
    compact: &[u8; COMPACT_SIZE],
    x: usize,
    filter: &[i8; 18],
    small: bool,
) -> [u8; 8]
    requires x_bound { x + 8 ≤ compact_end }
    requires small { small ≡ true → Small 18 filter.now }
    ensures { (j : ℕ) → j < 8 → get_or result j 0 ≡ compact_sample samples.entry.rows.bytes.now samples.entry.rows.indices.now compact.now filter.now (samples.entry.at + j) (x + j) }
{
    if small {
        return eight(|j| round_clip(uv_sum::<16>(samples.around(j), compact, x + j, filter)));
    }
    eight(|j| round_clip(uv_sum::<32>(samples.around(j), compact, x + j, filter)))
}

// Where the luma of the eight from byte `at` on is gathered, in a run from byte col0 on: the least shows the compiler that none of it leaves its row.
pub fn luma_from(at: usize, col0: usize) -> usize
    requires { (2 ≤ col0) × (col0 ≤ at + 8) × (at + 10 ≤ row_bytes) }
    ensures { (result ≡ at + 8 - col0) × (result + 8 ≤ compact_end) }
{
    (at + 8 - col0).min(LAST_GATHERED)
}

#[tactic(auto, unfolding(definition::specs::Leaves::uv_status))]
pub fn uv_status(
    dst: usize,
    rows: usize,
    indices: &[usize; INDEX_COUNT],
    col0: usize,
    lcol0: usize,
    step: usize,
    n: usize,
) -> Result<(), Refusal>
    ensures { status_from result ≡ uv_status dst rows indices.now col0 lcol0 step n }
{
    outside_unless(
        own_inside(dst, rows, indices, col0, n, STATE_BYTES, 4, 2)
            && step <= 2
            && 4 <= lcol0
            && bounds::room(lcol0, step * n, 4, LUMA_ROW_BYTES),
    )
}
