// Pretrained sets: 12 pairs, and the centre with a number of its own.
ghost use Rattle.std.specs.Prelude.{true, ◌≡◌, ℕ, ◌+◌, ◌^◌, ◌<◌, ◌≤◌, pos, nat_abs, ◌+ℤ◌, ◌*ℤ◌, get_or};
ghost use Rattle.definition.specs.Rows.{luma_flat};
ghost use Rattle.definition.specs.Sample.{limit8, centre, pair_of, pretrained_sum, pretrained_sample, pc_config};
ghost use Rattle.definition.specs.Leaves.{coefficients};
ghost use Rattle.filter.specs.Windows.{TakenOff, taken_off, centre_limit};
ghost use Rattle.filter.specs.Groups.{Small};

use crate::around::{Around, Eight};
use crate::narrow::is_large;
use crate::sums::{Summed, Taps};
use crate::taps::{LIMIT, round_clip};
use crate::turns::eight;
use tables::PC_WIENER_CONFIG;

// LIMIT times the numbers of a pretrained set but its last. A tap multiplies a pair less LIMIT, which is of either sign: then the compiler multiplies 16 by 16 bits.
pub fn taken_off(filter: &[i16; 13]) -> i32
    ensures { TakenOff limit8 filter.now result }
{
    let mut s: i32 = 0;
    for c in &filter[..12] {
        s += i32::from(*c);
    }
    LIMIT * s
}

// The centre times the last number of a set.
#[inline(always)]
fn pc_centre(around: &Around<'_, 4>, last: i16) -> i32
    ensures { (result ≡ pos (centre (luma_flat around.now.rows.bytes.now around.now.rows.indices.now around.now.col)) *ℤ last) × (nat_abs result ≤ centre_limit) }
{
    let m = around.centre();
    i32::from(m) * i32::from(last)
}

// A set, whose pairs are less a base: LIMIT or, in groups, nothing.
#[derive(Clone, Copy)]
struct Set<'a> {
    filter: &'a [i16; 13],
    base: u32,
    off: i32,
    ghost taken_off: { (base ≤ limit8) × TakenOff base filter.now off },
}

impl<'a> Set<'a> {
    // The sum that one sample rounds; the last number of the set stands beside it.
    #[inline(always)]
    fn sum<const BITS: usize>(&self, around: Around<'a, 4>, last: i16) -> i32
        requires small { BITS ≡ 16 → Small 12 self.now.filter.now }
        requires last_value { last ≡ coefficients self.now.filter.now 12 }
        ensures value { result ≡ pretrained_sum (luma_flat around.entry.rows.bytes.now around.entry.rows.indices.now around.entry.col) (coefficients self.now.filter.now) }
        ensures bound { nat_abs result < 2 ^ 30 }
    {
        let taps = PretrainedTaps {
            set: *self,
            around,
            last,
        };
        Summed::<'_, BITS, PretrainedTaps<'a>> { taps: &taps }.twelve()
    }
}

// Its taps around one sample.
#[derive(Clone, Copy)]
struct PretrainedTaps<'a> {
    set: Set<'a>,
    around: Around<'a, 4>,
    last: i16,
    ghost last_is: { last ≡ coefficients set.filter.now 12 },
}

impl<'a> Taps for PretrainedTaps<'a> {
    ghost count = { λ s. 12 };

    ghost first = { λ s. taken_off s.set.base (coefficients s.set.filter.now) +ℤ pos (centre (luma_flat s.around.rows.bytes.now s.around.rows.indices.now s.around.col)) *ℤ coefficients s.set.filter.now 12 };

    ghost samples = { λ s. pair_of (luma_flat s.around.rows.bytes.now s.around.rows.indices.now s.around.col) pc_config };

    ghost base = { λ s. s.set.base };

    ghost numbers = { λ s. coefficients s.set.filter.now };

    fn start(&self) -> i32 {
        self.set.off + pc_centre(&self.around, self.last)
    }

    fn sample(&self, k: usize) -> u32 {
        let t = PC_WIENER_CONFIG[k];
        self.around.pair_at(t[0], t[1])
    }

    fn base(&self) -> u32 {
        self.set.base
    }

    fn number(&self, k: usize) -> i16 {
        self.set.filter[k]
    }
}

// Whether no number of a set's taps is too large for a group. Those that are are counted: of a flag the compiler makes two loops of the run, and units of
// short runs get slower. One test for this and `is_small`, handed the numbers by a closure, was tried: runs of 16 samples by the other filters took up to
// 6 % more.
pub fn is_small_set(filter: &[i16; 13]) -> bool
    ensures { result ≡ true → Small 12 filter.now }
{
    let mut found: u8 = 0;
    for c in &filter[..12] {
        if is_large(*c) {
            found += 1;
        }
    }
    found == 0
}

// Eight samples, by the set or, where its taps are small, by its copy. What this and the other filters share is `eight`: handed the two ways to work a sample out as
// closures, one function would only say `if small` for them.
pub fn pc_eight_by(
    samples: Eight<'_, 4>,
    filter: &[i16; 13],
    off: i32,
    copy: &[i16; 13],
    small: bool,
) -> [u8; 8]
    requires taken_off { TakenOff limit8 filter.now off }
    requires copy_value { (copy.now ≡ filter.now) × (small ≡ true → Small 12 copy.now) }
    ensures { (j : ℕ) → j < 8 → get_or result j 0 ≡ pretrained_sample limit8 (luma_flat samples.entry.rows.bytes.now samples.entry.rows.indices.now (samples.entry.at + j)) (coefficients filter.now) }
{
    if small {
        let set = Set {
            filter: copy,
            base: 0,
            off: 0,
        };
        // The last number stands in eight places: so the compiler multiplies eight centres at once.
        let last = [copy[12]; 8];
        return eight(|j| round_clip(set.sum::<16>(samples.around(j), last[j])));
    }
    // `as` changes the sign of 255 alone.
    let set = Set {
        filter,
        base: LIMIT as u32,
        off,
    };
    eight(|j| round_clip(set.sum::<32>(samples.around(j), filter[12])))
}
