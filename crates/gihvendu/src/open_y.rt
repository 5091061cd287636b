ghost use Rattle.definition.specs.declared.Operation.TheVariants.{Luma};
ghost use Rattle.definition.specs.Calls.{given_y, luma_lent};
ghost use Rattle.units.specs.Openings.{Begun};

use definition::{Given, Lists, NO_LISTS, Operation};
use units::Opened;

#[unsafe(no_mangle)]
pub extern "C" fn gihvendu_open_y<'a>(
    p: &'a [u8],
    p_off: usize,
    stride: usize,
    left: &'a [u8],
    lpf: &'a [u8],
    lpf_off: usize,
    lpf_bottom: &'a [u8],
    lpf_bottom_off: usize,
    w: usize,
    h: usize,
    filter: &'a [i8],
    edges: usize,
    skip: &'a [u16],
) -> Opened
    ensures { Begun Luma result (given_y w h edges stride p_off lpf_off lpf_bottom_off) (luma_lent left.now lpf.now lpf_bottom.now filter.now skip.now) p.now }
{
    let g = Given {
        w,
        h,
        edges,
        stride,
        off: p_off,
        top_off: lpf_off,
        bottom_off: lpf_bottom_off,
        ..Given::default()
    };
    let lent = Lists {
        left,
        top: lpf,
        bottom: lpf_bottom,
        filters: filter,
        skip,
        ..NO_LISTS
    };
    Opened::from(units::open(Operation::Luma, g, p, &lent))
}
