ghost use Rattle.definition.specs.declared.Operation.TheVariants.{Luma};
ghost use Rattle.definition.specs.Calls.{given_y, luma_lent};
ghost use Rattle.whole.specs.Whole.{Whole};

use definition::{Given, Lists, NO_LISTS, Operation};
use whole::Restored;

#[unsafe(no_mangle)]
pub extern "C" fn gihvendu_ns_wiener_single_y_8bpc<'a>(
    p: &mut [u8],
    p_off: usize,
    stride: usize,
    left: &'a [u8],
    lpf: &'a [u8],
    lpf_off: usize,
    lpf_bottom: &'a [u8],
    lpf_bottom_off: usize,
    w: usize,
    h: usize,
    filter: &'a [i8],
    edges: usize,
    skip: &'a [u16],
) -> Restored
    ensures { Whole Luma result (given_y w h edges stride p_off lpf_off lpf_bottom_off) (luma_lent left.now lpf.now lpf_bottom.now filter.now skip.now) p.old p.new }
{
    let g = Given {
        w,
        h,
        edges,
        stride,
        off: p_off,
        top_off: lpf_off,
        bottom_off: lpf_bottom_off,
        ..Given::default()
    };
    let lent = Lists {
        left,
        top: lpf,
        bottom: lpf_bottom,
        filters: filter,
        skip,
        ..NO_LISTS
    };
    Restored::from(whole::restore(Operation::Luma, g, p, &lent))
}
