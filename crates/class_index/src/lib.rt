// looprestoration.rs: the class index of a block with its parts, at depth 8. Nothing is written.
#![tactic(auto)]

ghost use Rattle.std.specs.Prelude.{◌≡◌, ℕ, cond, ◌+◌, ◌*◌, ◌<◌, ◌≤◌, pos, ◌+ℤ◌, length, get_or, IfOk};
ghost use Rattle.definition.specs.Answers.{status_from};
ghost use Rattle.definition.specs.Numbers.{bit_set, to_i32};
ghost use Rattle.definition.specs.ClassIndex.{last_column, features_of, term, bin, skip_sum, factors, bins_of, index_of};
ghost use Rattle.definition.specs.SkipSums.{skip_pattern, pattern_count};
ghost use Rattle.definition.specs.Refusals.{class_status};
ghost use Rattle.definition.specs.Leaves.{block_flat, bad_place, place_status};
ghost use Rattle.class_index.specs.Answers.{class_index_by, indexed_of};

use bounds::is_set;
use definition::{BLOCK_ROW_LIMIT, INDEX_COUNT, LAST_COLUMN, ROWS_SIZE, Refusal};
use features::pcw_features;
use intops::saturating_add;
use qval::{get_qval_given_tskip, get_qval_lut_bin};
use tables::{PC_WIENER_NORMALIZER, SKIP_SUMS};

// A block by its column and its row, in a unit with bh block rows: any, as callers may hand in what is no block's.
#[derive(Clone, Copy)]
pub struct Place {
    pub bx: usize,
    pub by: usize,
    pub bh: usize,
}

impl Place {
    // Whether it is no block's.
    fn is_bad(self) -> bool
        ensures { result ≡ bad_place self.bx self.by self.bh }
    {
        LAST_COLUMN < self.bx || BLOCK_ROW_LIMIT < self.bh || self.bh <= self.by
    }
}

// A class index, 0 to 4095, and what it is made of: the skip sum before the factor 7, 0 to 36, and the four bins, 0 to 7, that of the first term first.
#[repr(C)]
#[derive(Clone, Copy)]
pub struct ClassIndex {
    pub index: u32,
    pub skip_sum: u32,
    pub bins: [u32; 4],
}

// What a program in C is answered: the status, and the class index or zeros.
#[repr(C)]
#[derive(Clone, Copy)]
pub struct Indexed {
    pub status: u8,
    pub class_index: ClassIndex,
}

impl From<Result<ClassIndex, Refusal>> for Indexed {
    ghost from_gives = { λ r x. x ≡ indexed_of r };

    fn from(answer: Result<ClassIndex, Refusal>) -> Indexed {
        match answer {
            Ok(class_index) => Indexed {
                status: 0,
                class_index,
            },
            Err(refusal) => Indexed {
                status: u8::from(refusal),
                class_index: ClassIndex {
                    index: 0,
                    skip_sum: 0,
                    bins: [0; 4],
                },
            },
        }
    }
}

// The noskip bits of three neighbours of one row, that of the first column the lowest.
fn row_bits(mask: u16, columns: [usize; 3]) -> usize
    ensures { (result ≡ cond (bit_set mask (get_or columns 0 0)) 1 0 + cond (bit_set mask (get_or columns 1 0)) 2 0 + cond (bit_set mask (get_or columns 2 0)) 4 0) × (result ≤ 7) }
{
    let bit = |column| usize::from(is_set(usize::from(mask), column));
    bit(columns[0]) + 2 * bit(columns[1]) + 4 * bit(columns[2])
}

// The pattern of a block's nine noskip bits, from neighbours whose columns and rows are clipped.
#[tactic(auto, using(crate::proofs::Patterns::of_block))]
fn skip_pattern(noskip: &[u16], place: Place) -> usize
    requires { (place.bx ≤ last_column) × (place.by < place.bh) × (place.bh ≤ length noskip.now) }
    ensures { (result ≡ skip_pattern noskip.now place.bh place.bx place.by) × (result < pattern_count) }
{
    let Place { bx, by, bh } = place;
    let columns = [bx.saturating_sub(1), bx, (bx + 1).min(LAST_COLUMN)];
    let above = row_bits(noskip[by.saturating_sub(1)], columns);
    let here = row_bits(noskip[by], columns);
    let below = row_bits(noskip[(by + 1).min(bh - 1)], columns);
    above + 8 * here + 64 * below
}

// The skip sum, read from the table by the block's pattern.
fn skip_sum(noskip: &[u16], place: Place) -> u32
    requires { (place.bx ≤ last_column) × (place.by < place.bh) × (place.bh ≤ length noskip.now) }
    ensures { (result ≡ skip_sum noskip.now place.bh place.bx place.by) × (result ≤ 36) }
{
    u32::from(SKIP_SUMS[skip_pattern(noskip, place)])
}

// The sums, scaled entry by entry. A product is at most 65535 * 3739 and narrowed by `as`.
fn scaled(f: [u16; 3]) -> [i32; 3]
    ensures { (k : ℕ) → k < 3 → get_or result k (pos 0) ≡ pos (get_or f k 0 * get_or factors k 0) }
{
    std::array::from_fn(|k| (u32::from(f[k]) * PC_WIENER_NORMALIZER[k]) as i32)
}

// One of the four terms.
fn term(qstep: i32, tskip: u8, i: usize) -> i32
    requires { i < 4 }
    ensures { result ≡ term qstep tskip i }
{
    get_qval_given_tskip(qstep, tskip, i).unwrap()
}

// The bin of the first term.
#[tactic(auto, unfolding(definition::specs::ClassIndex::bin))]
fn term_bin(qstep: i32, tskip: u8) -> u32
    ensures { (result ≡ bin (term qstep tskip 0)) × (result ≤ 7) }
{
    get_qval_lut_bin(term(qstep, tskip, 0))
}

// The bin of a scaled feature plus its term.
#[tactic(auto, unfolding(definition::specs::ClassIndex::bin))]
fn feature_bin(f: i32, qstep: i32, tskip: u8, i: usize) -> u32
    requires { i < 4 }
    ensures { (result ≡ bin (to_i32 (f +ℤ term qstep tskip i))) × (result ≤ 7) }
{
    get_qval_lut_bin(saturating_add(f, term(qstep, tskip, i)))
}

// The four bins. The skip sum times 7 is at most 252 and narrowed by `as`.
#[tactic(auto, unfolding(definition::specs::ClassIndex::bins_of))]
fn bins(sums: [u16; 3], qstep: i32, skip_sum: u32) -> [u32; 4]
    requires { skip_sum ≤ 36 }
    ensures { (result ≡ bins_of sums qstep skip_sum) × ((k : ℕ) → k < 4 → get_or result k 0 ≤ 7) }
{
    let f = scaled(sums);
    let tskip = (7 * skip_sum) as u8;
    [
        term_bin(qstep, tskip),
        feature_bin(f[0], qstep, tskip, 1),
        feature_bin(f[1], qstep, tskip, 2),
        feature_bin(f[2], qstep, tskip, 3),
    ]
}

// The index, from the bins.
#[tactic(auto, unfolding(definition::specs::ClassIndex::index_of))]
fn lut_index(bins: [u32; 4]) -> u32
    requires { (k : ℕ) → k < 4 → get_or bins k 0 ≤ 7 }
    ensures { result ≡ index_of bins }
{
    512 * bins[0] + 64 * bins[1] + 8 * bins[2] + bins[3]
}

// The class index, from the features.
fn class_index(sums: [u16; 3], noskip: &[u16], base_q: i32, place: Place) -> ClassIndex
    requires { (place.bx ≤ last_column) × (place.by < place.bh) × (place.bh ≤ length noskip.now) }
    ensures { result ≡ class_index_by sums noskip.now base_q place.bx place.by place.bh }
{
    let skip_sum = skip_sum(noskip, place);
    let bins = bins(sums, base_q, skip_sum);
    ClassIndex {
        index: lut_index(bins),
        skip_sum,
        bins,
    }
}

// The class index of a block, by its rows.
#[tactic(auto, unfolding(definition::specs::Refusals::class_status, definition::specs::Leaves::rows_status, definition::specs::Leaves::place_status))]
pub fn get_class_lut_idx_8bpc(
    rows: &[u8],
    indices: &[usize; INDEX_COUNT],
    noskip: &[u16],
    base_q: i32,
    place: Place,
) -> Result<ClassIndex, Refusal>
    ensures status_value { status_from result ≡ class_status (length rows.now) indices.now (length noskip.now) place.bx place.by place.bh }
    ensures index_value { IfOk result (λ c. c ≡ class_index_by (features_of (block_flat rows.now indices.now place.bx)) noskip.now base_q place.bx place.by place.bh) }
{
    if place.is_bad() {
        return Err(Refusal::Block);
    }
    // Before the features are worked out: where rows lie outside, that is the reason.
    if noskip.len() < place.bh && ROWS_SIZE <= rows.len() && bounds::indices_up_to(indices, 9) {
        return Err(Refusal::Masks);
    }
    let sums = pcw_features(rows, indices, place.bx)?;
    class_of_features(sums, noskip, base_q, place)
}

// The same from the block's three features, for who works out those of a whole block row: vertical, falling, rising.
#[tactic(auto, unfolding(definition::specs::Leaves::place_status))]
pub fn class_of_features(
    sums: [u16; 3],
    noskip: &[u16],
    base_q: i32,
    place: Place,
) -> Result<ClassIndex, Refusal>
    ensures status_value { status_from result ≡ place_status (length noskip.now) place.bx place.by place.bh }
    ensures index_value { IfOk result (λ c. c ≡ class_index_by sums noskip.now base_q place.bx place.by place.bh) }
{
    if place.is_bad() {
        return Err(Refusal::Block);
    }
    if noskip.len() < place.bh {
        return Err(Refusal::Masks);
    }
    Ok(class_index(sums, noskip, base_q, place))
}
