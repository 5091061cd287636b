ghost use Rattle.definition.specs.declared.Operation.TheVariants.{Chroma};
ghost use Rattle.definition.specs.Calls.{chroma_lent, call_of};
ghost use Rattle.units.specs.Advances.{answer, Answered};

use definition::{Lists, NO_LISTS, Operation};
use units::{Advanced, State};

#[unsafe(no_mangle)]
pub extern "C" fn gihvendu_advance_c<'a>(
    state: State,
    count: usize,
    p: &mut [u8],
    left: &'a [u8],
    lpf: &'a [u8],
    lpf_bottom: &'a [u8],
    filter: &'a [i8],
    luma: &'a [u8],
    luma_top: &'a [u8],
    luma_bottom: &'a [u8],
    skip: &'a [u16],
) -> Advanced
    ensures { Answered result p.new (answer (call_of Chroma count (chroma_lent left.now lpf.now lpf_bottom.now filter.now luma.now luma_top.now luma_bottom.now skip.now)) state p.old) }
{
    let lent = Lists {
        left,
        top: lpf,
        bottom: lpf_bottom,
        filters: filter,
        luma,
        luma_top,
        luma_bottom,
        skip,
        ..NO_LISTS
    };
    state.advance(Operation::Chroma, count, p, &lent)
}
