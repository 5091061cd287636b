// Masks, pieces and stretches of a row of blocks: bit k of a mask is block k, and 1 leaves the block.
#![tactic(auto)]

ghost use Rattle.std.specs.Prelude.{◌≡◌, ◌+◌, ◌-◌, ◌≤◌, ◌<◌, IfOk};
ghost use Rattle.definition.specs.Answers.{status_from};
ghost use Rattle.definition.specs.Blocks.{masked, clear_below, stretch_end, stretch_start};
ghost use Rattle.definition.specs.Leaves.{row_status, block_status, end_from};
ghost use Rattle.definition.specs.Limits.{block_column_limit};
ghost use Rattle.definition.specs.Planes.{skip_numbers};

use definition::{BLOCK_COLUMN_LIMIT, MASK_BITS, Refusal, SIDE};

// The pieces of one row: the clear bits below bw, by the count of ones. A count of bits is at most 32 and widened by `as`: the language has no `From` for it.
#[tactic(auto, using(crate::proofs::Bits::one_shl, crate::proofs::Bits::count))]
pub fn pieces_of_row(mask: u16, bw: usize) -> Result<usize, Refusal>
    ensures status_value { status_from result ≡ row_status bw }
    ensures pieces_value { IfOk result (λ n. n ≡ clear_below mask bw) }
{
    if BLOCK_COLUMN_LIMIT < bw {
        return Err(Refusal::Outside);
    }
    let low = u32::from(mask) % (1 << bw);
    Ok(bw - low.count_ones() as usize)
}

// The first masked block from bx on, else bw, by trailing zeros: where a stretch of unmasked blocks ends. Their count, at most 32, is widened by `as`.
fn masked_end(mask: u16, bx: usize, bw: usize) -> usize
    requires { (bx ≤ bw) × (bw ≤ block_column_limit) }
    ensures { result ≡ stretch_end mask bx bw }
{
    let zeros = (u32::from(mask) >> bx).trailing_zeros() as usize;
    (bx + zeros).min(bw)
}

fn is_masked(mask: u16, bx: usize) -> bool
    ensures { result ≡ masked mask bx }
{
    bounds::is_set(usize::from(mask), bx)
}

// The blocks from start to the one before end.
#[derive(Clone, Copy)]
pub struct Stretch {
    pub start: usize,
    pub end: usize,
}

// The next stretch of unmasked blocks of one class from bx on: it ends at the first masked block or other class. Start and end are bw where there is none, as docs/SCOPE.md has it (Leaves).
pub fn class_stretch(
    mask: u16,
    classes: &[u8; BLOCK_COLUMN_LIMIT],
    bx: usize,
    bw: usize,
) -> Result<Stretch, Refusal>
    ensures status_value { status_from result ≡ block_status bx bw }
    ensures start_value { IfOk result (λ s. s.start ≡ stretch_start mask bx bw) }
    ensures end_value { IfOk result (λ s. s.end ≡ end_from mask classes.now (stretch_start mask bx bw) bw) }
{
    if BLOCK_COLUMN_LIMIT < bw || bw < bx {
        return Err(Refusal::Outside);
    }
    for start in bx..bw {
        if !is_masked(mask, start) {
            let limit = masked_end(mask, start + 1, bw);
            // That the end is the value of a loop is a form that the scope names.
            let mut next = start + 1;
            let end = loop {
                if limit <= next || classes[next] != classes[start] {
                    break next;
                }
                next += 1;
            };
            return Ok(Stretch { start, end });
        }
    }
    Ok(Stretch { start: bw, end: bw })
}

// The skip numbers to a block row of a plane that is w wide.
pub fn skip_numbers(w: usize) -> usize
    ensures { result ≡ skip_numbers w }
{
    (w / SIDE).div_ceil(MASK_BITS)
}
