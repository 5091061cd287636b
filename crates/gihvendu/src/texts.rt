// The state of a unit as lines of text.
ghost use Rattle.std.specs.Prelude.{◌≡◌};
ghost use Rattle.units.specs.Openings.{opened_of};
ghost use Rattle.units.specs.Texts.{WrittenState, state_in};

use units::{Opened, State, Written};

#[unsafe(no_mangle)]
pub extern "C" fn gihvendu_write_state(state: State, out: &mut [u8]) -> Written
    ensures { WrittenState result state out.old out.new }
{
    Written::from(state.write(out))
}

#[unsafe(no_mangle)]
pub extern "C" fn gihvendu_read_state(text: &[u8]) -> Opened
    ensures { result ≡ opened_of (state_in text.now) }
{
    Opened::from(State::read(text))
}
