// filter.rs: the three filter runs. Each writes the restored samples of one stretch into the part of the plane that it is lent.
// Rows are one flat array of padded rows, reached by ten row indices. Samples are worked out eight at a time in a local, which no store to the
// destination can be taken to change. Their filter is read anew for each eight: the compiler then sees that its numbers are short. Only small filters are
// read from a copy (narrow.rt).
// What narrows or changes its sign is cast by `as`, which is proved to lose nothing: `try_from` would be a test that cannot fail.
#![tactic(auto)]

ghost use Rattle.std.specs.Prelude.{true, ◌≡◌, ℕ, ◌+◌, ◌-◌, ◌<◌, ◌≤◌, length, get_or};
ghost use Rattle.definition.specs.Answers.{status_from};
ghost use Rattle.definition.specs.Rows.{luma_flat, row_bytes};
ghost use Rattle.definition.specs.Sample.{limit8, luma_sample, pretrained_sample};
ghost use Rattle.definition.specs.Leaves.{coefficients, run_status, uv_status, luma_run, pretrained_run, chroma_run};
ghost use Rattle.filter.specs.Windows.{TakenOff};
ghost use Rattle.filter.specs.Groups.{Small};
ghost use Rattle.filter.specs.Gathered.{compact_sample};

mod around;
mod chroma;
mod luma;
mod narrow;
mod pairs;
mod pretrained;
mod sums;
mod taps;
mod turns;

use around::Rows;
use chroma::{LAST_CHROMA_EIGHT, gather, luma_from, uv_eight, uv_status};
use definition::{INDEX_COUNT, ROW_BYTES, Refusal};
use luma::y_eight_by;
use narrow::worth_groups;
use pretrained::{is_small_set, pc_eight_by, taken_off};
use taps::run_status;
use turns::run;

// The byte that the last eight samples of a row begin at: their taps reach four columns further on both sides.
const LAST_EIGHT: usize = ROW_BYTES - 8 - 4;

// The n samples from byte col0 on, restored by a luma filter or by the first 16 numbers of a user set. This and the next are each a function of the Rust.
pub fn ns_wiener_fir_run(
    dst: &mut [u8],
    rows: &[u8],
    indices: &[usize; INDEX_COUNT],
    col0: usize,
    filter: &[i8; 16],
    n: usize,
) -> Result<(), Refusal>
    ensures value { status_from result ≡ run_status (length dst.old) (length rows.now) indices.now col0 n }
    ensures dst_after { dst.new ≡ luma_run dst.old rows.now indices.now col0 filter.now n }
{
    run_status(dst.len(), rows.len(), indices, col0, n)?;
    let ix = *indices;
    let own = Rows::<'_, 4> {
        bytes: rows,
        indices: &ix,
    };
    // The flag and the copy, here and in the next, are no plainer as one `Option`: it would be matched anew for each eight, and `copy_value` say the same of what is in it.
    let small = worth_groups(filter, n);
    let copy = *filter;
    run(
        dst,
        col0,
        n,
        LAST_EIGHT,
        |at|
            requires inside { (4 ≤ at) × (at + 12 ≤ row_bytes) }
            requires copy_value { (copy ≡ filter.now) × (small ≡ true → Small 16 copy) }
            ensures { (j : ℕ) → j < 8 → get_or result j 0 ≡ luma_sample limit8 (luma_flat own.entry.bytes.now own.entry.indices.now (at + j)) (coefficients filter.entry.now) }
        { y_eight_by(own.eight(at), filter, &copy, small) },
    );
    Ok(())
}

// The n samples from byte col0 on, restored by a pretrained set.
pub fn pc_wiener_fir_run(
    dst: &mut [u8],
    rows: &[u8],
    indices: &[usize; INDEX_COUNT],
    col0: usize,
    filter: &[i16; 13],
    n: usize,
) -> Result<(), Refusal>
    ensures value { status_from result ≡ run_status (length dst.old) (length rows.now) indices.now col0 n }
    ensures dst_after { dst.new ≡ pretrained_run dst.old rows.now indices.now col0 filter.now n }
{
    run_status(dst.len(), rows.len(), indices, col0, n)?;
    let ix = *indices;
    let own = Rows::<'_, 4> {
        bytes: rows,
        indices: &ix,
    };
    let off = taken_off(filter);
    let small = is_small_set(filter);
    let copy = *filter;
    run(
        dst,
        col0,
        n,
        LAST_EIGHT,
        |at|
            requires inside { (4 ≤ at) × (at + 12 ≤ row_bytes) }
            requires taken_off { TakenOff limit8 filter.now off }
            requires copy_value { (copy ≡ filter.now) × (small ≡ true → Small 12 copy) }
            ensures { (j : ℕ) → j < 8 → get_or result j 0 ≡ pretrained_sample limit8 (luma_flat own.entry.bytes.now own.entry.indices.now (at + j)) (coefficients filter.entry.now) }
        { pc_eight_by(own.eight(at), filter, off, &copy, small) },
    );
    Ok(())
}

// The n chroma samples from byte col0 on; lcol0 is the byte of the first one's luma sample, step the luma columns to a chroma column.
// Its eight parameters are those of the C function.
pub fn ns_wiener_uv_fir_run(
    dst: &mut [u8],
    rows: &[u8],
    indices: &[usize; INDEX_COUNT],
    col0: usize,
    lcol0: usize,
    step: usize,
    filter: &[i8; 18],
    n: usize,
) -> Result<(), Refusal>
    ensures value { status_from result ≡ uv_status (length dst.old) (length rows.now) indices.now col0 lcol0 step n }
    ensures dst_after { dst.new ≡ chroma_run dst.old rows.now indices.now col0 lcol0 step filter.now n }
{
    uv_status(dst.len(), rows.len(), indices, col0, lcol0, step, n)?;
    let ix = *indices;
    let own = Rows::<'_, 2> {
        bytes: rows,
        indices: &ix,
    };
    let compact = gather(rows, &ix, lcol0 - 2 * step, step, n);
    // A small filter has a loop of its own: one loop for both ways is slower.
    if worth_groups(filter, n) {
        let copy = *filter;
        run(
            dst,
            col0,
            n,
            LAST_CHROMA_EIGHT,
            |at|
                requires inside { (2 ≤ at) × (at + 10 ≤ row_bytes) }
                requires col0_bound { (2 ≤ col0) × (col0 ≤ at + 8) }
                requires small { Small 18 copy }
                ensures { (j : ℕ) → j < 8 → get_or result j 0 ≡ compact_sample own.entry.bytes.now own.entry.indices.now compact copy (at + j) (at + 8 - col0 + j) }
            { uv_eight(own.eight(at), &compact, luma_from(at, col0), &copy, true) },
        );
        return Ok(());
    }
    run(
        dst,
        col0,
        n,
        LAST_CHROMA_EIGHT,
        |at|
            requires inside { (2 ≤ at) × (at + 10 ≤ row_bytes) }
            requires col0_bound { (2 ≤ col0) × (col0 ≤ at + 8) }
            ensures { (j : ℕ) → j < 8 → get_or result j 0 ≡ compact_sample own.entry.bytes.now own.entry.indices.now compact filter.entry.now (at + j) (at + 8 - col0 + j) }
        { uv_eight(own.eight(at), &compact, luma_from(at, col0), filter, false) },
    );
    Ok(())
}
