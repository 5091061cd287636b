ghost use Rattle.definition.specs.declared.Operation.TheVariants.{User};
ghost use Rattle.definition.specs.Calls.{given_y, classed_lent};
ghost use Rattle.units.specs.Openings.{Begun};

use definition::{Given, Lists, NO_LISTS, Operation};
use units::Opened;

#[unsafe(no_mangle)]
pub extern "C" fn gihvendu_open_n<'a>(
    p: &'a [u8],
    p_off: usize,
    stride: usize,
    left: &'a [u8],
    lpf: &'a [u8],
    lpf_off: usize,
    lpf_bottom: &'a [u8],
    lpf_bottom_off: usize,
    w: usize,
    h: usize,
    filters: &'a [i8],
    map: &'a [u8],
    subclass: &'a [u8],
    noskip: &'a [u16],
    base_q: i32,
    edges: usize,
    skip: &'a [u16],
) -> Opened
    ensures { Begun User result (given_y w h edges stride p_off lpf_off lpf_bottom_off) (classed_lent left.now lpf.now lpf_bottom.now filters.now map.now subclass.now noskip.now skip.now base_q) p.now }
{
    let g = Given {
        w,
        h,
        edges,
        stride,
        off: p_off,
        top_off: lpf_off,
        bottom_off: lpf_bottom_off,
        ..Given::default()
    };
    let lent = Lists {
        left,
        top: lpf,
        bottom: lpf_bottom,
        filters,
        map,
        subclass,
        noskip,
        base_q,
        skip,
        ..NO_LISTS
    };
    Opened::from(units::open(Operation::User, g, p, &lent))
}
