ghost use Rattle.definition.specs.declared.Operation.TheVariants.{Chroma};
ghost use Rattle.definition.specs.Calls.{given_c, chroma_lent};
ghost use Rattle.units.specs.Openings.{Begun};

use definition::{Given, Lists, NO_LISTS, Operation};
use units::Opened;

#[unsafe(no_mangle)]
pub extern "C" fn gihvendu_open_c<'a>(
    p: &'a [u8],
    p_off: usize,
    stride: usize,
    left: &'a [u8],
    lpf: &'a [u8],
    lpf_off: usize,
    lpf_bottom: &'a [u8],
    lpf_bottom_off: usize,
    w: usize,
    h: usize,
    filter: &'a [i8],
    luma: &'a [u8],
    luma_off: usize,
    lstride: usize,
    luma_top: &'a [u8],
    luma_top_off: usize,
    luma_bottom: &'a [u8],
    luma_bottom_off: usize,
    ss_hor: usize,
    ss_ver: usize,
    ds_flt: usize,
    edges: usize,
    skip: &'a [u16],
) -> Opened
    ensures { Begun Chroma result (given_c w h edges stride lstride p_off lpf_off lpf_bottom_off luma_off luma_top_off luma_bottom_off ss_hor ss_ver ds_flt) (chroma_lent left.now lpf.now lpf_bottom.now filter.now luma.now luma_top.now luma_bottom.now skip.now) p.now }
{
    let g = Given {
        w,
        h,
        edges,
        stride,
        luma_stride: lstride,
        off: p_off,
        top_off: lpf_off,
        bottom_off: lpf_bottom_off,
        luma_off,
        luma_top_off,
        luma_bottom_off,
        ss_hor,
        ss_ver,
        kind: ds_flt,
    };
    let lent = Lists {
        left,
        top: lpf,
        bottom: lpf_bottom,
        filters: filter,
        luma,
        luma_top,
        luma_bottom,
        skip,
        ..NO_LISTS
    };
    Opened::from(units::open(Operation::Chroma, g, p, &lent))
}
