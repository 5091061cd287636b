ghost use Rattle.definition.specs.declared.Operation.TheVariants.{Luma};
ghost use Rattle.definition.specs.Calls.{luma_lent, call_of};
ghost use Rattle.units.specs.Advances.{answer, Answered};

use definition::{Lists, NO_LISTS, Operation};
use units::{Advanced, State};

#[unsafe(no_mangle)]
pub extern "C" fn gihvendu_advance_y<'a>(
    state: State,
    count: usize,
    p: &mut [u8],
    left: &'a [u8],
    lpf: &'a [u8],
    lpf_bottom: &'a [u8],
    filter: &'a [i8],
    skip: &'a [u16],
) -> Advanced
    ensures { Answered result p.new (answer (call_of Luma count (luma_lent left.now lpf.now lpf_bottom.now filter.now skip.now)) state p.old) }
{
    let lent = Lists {
        left,
        top: lpf,
        bottom: lpf_bottom,
        filters: filter,
        skip,
        ..NO_LISTS
    };
    state.advance(Operation::Luma, count, p, &lent)
}
