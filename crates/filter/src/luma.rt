// Luma: 16 pairs around the centre.
ghost use Rattle.std.specs.Prelude.{true, ◌≡◌, ℕ, ◌+◌, ◌^◌, ◌<◌, nat_abs, get_or};
ghost use Rattle.definition.specs.Rows.{luma_flat};
ghost use Rattle.definition.specs.Sample.{limit8, luma_sum, luma_sample};
ghost use Rattle.definition.specs.Leaves.{coefficients};
ghost use Rattle.filter.specs.Groups.{Small};

use crate::around::{Around, Eight};
use crate::pairs::PairTaps;
use crate::sums::Summed;
use crate::taps::round_clip;
use crate::turns::eight;
use tables::WIENER_NS_CONFIG_Y;

// The sum that one sample of the luma filter rounds.
#[inline(always)]
fn y_sum<const BITS: usize>(around: Around<'_, 4>, filter: &[i8; 16]) -> i32
    requires small { BITS ≡ 16 → Small 16 filter.now }
    ensures value { result ≡ luma_sum (luma_flat around.entry.rows.bytes.now around.entry.rows.indices.now around.entry.col) (coefficients filter.now) }
    ensures bound { nat_abs result < 2 ^ 30 }
{
    let taps = PairTaps::<'_, 4, 16, 16> {
        around,
        filter,
        table: WIENER_NS_CONFIG_Y,
    };
    Summed::<'_, BITS, PairTaps<'_, 4, 16, 16>> { taps: &taps }.sixteen()
}

// Eight samples, by the filter or, where its numbers are small, by its copy.
pub fn y_eight_by(samples: Eight<'_, 4>, filter: &[i8; 16], copy: &[i8; 16], small: bool) -> [u8; 8]
    requires copy_value { (copy.now ≡ filter.now) × (small ≡ true → Small 16 copy.now) }
    ensures { (j : ℕ) → j < 8 → get_or result j 0 ≡ luma_sample limit8 (luma_flat samples.entry.rows.bytes.now samples.entry.rows.indices.now (samples.entry.at + j)) (coefficients filter.now) }
{
    if small {
        return eight(|j| round_clip(y_sum::<16>(samples.around(j), copy)));
    }
    eight(|j| round_clip(y_sum::<32>(samples.around(j), filter)))
}
