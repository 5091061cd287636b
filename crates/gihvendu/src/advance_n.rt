ghost use Rattle.definition.specs.declared.Operation.TheVariants.{User};
ghost use Rattle.definition.specs.Calls.{classed_lent, call_of};
ghost use Rattle.units.specs.Advances.{answer, Answered};

use definition::{Lists, NO_LISTS, Operation};
use units::{Advanced, State};

#[unsafe(no_mangle)]
pub extern "C" fn gihvendu_advance_n<'a>(
    state: State,
    count: usize,
    p: &mut [u8],
    left: &'a [u8],
    lpf: &'a [u8],
    lpf_bottom: &'a [u8],
    filters: &'a [i8],
    map: &'a [u8],
    subclass: &'a [u8],
    noskip: &'a [u16],
    base_q: i32,
    skip: &'a [u16],
) -> Advanced
    ensures { Answered result p.new (answer (call_of User count (classed_lent left.now lpf.now lpf_bottom.now filters.now map.now subclass.now noskip.now skip.now base_q)) state p.old) }
{
    let lent = Lists {
        left,
        top: lpf,
        bottom: lpf_bottom,
        filters,
        map,
        subclass,
        noskip,
        base_q,
        skip,
        ..NO_LISTS
    };
    state.advance(Operation::User, count, p, &lent)
}
