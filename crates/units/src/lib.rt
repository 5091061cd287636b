// Units that can be broken off between rows: open hands out a state, advance takes it with a row count and hands it back.
#![tactic(auto)]

ghost use Rattle.std.specs.Prelude.{◌≡◌};
ghost use Rattle.units.specs.Advances.{is_finished};
ghost use Rattle.units.specs.Openings.{opened_of};

pub mod advance;
mod chroma;
mod classed;
mod luma_rows;
mod masks;
pub mod opening;
mod restore;
mod rows;
mod state_text;
mod unit;

use definition::{BLOCK_COLUMN_LIMIT, Given, INDEX_COUNT, Refusal, STATE_BYTES};
pub use opening::open;

// A unit between two advances. op: the operation's number, 0 of none: C may hand in any.
// rows: ten padded rows of 76 bytes; of a chroma unit five of 76 and, behind them, five luma rows of 140.
#[repr(C)]
#[derive(Clone, Copy)]
pub struct State {
    pub op: usize,
    pub given: Given,
    pub done: usize,
    pub next: usize,
    pub classes: [u8; BLOCK_COLUMN_LIMIT],
    pub indices: [usize; INDEX_COUNT],
    pub rows: [u8; STATE_BYTES],
}

// What an opening or the reading of a text hands C: the state, of zeros where the call is refused, and the status.
#[repr(C)]
#[derive(Clone, Copy)]
pub struct Opened {
    pub state: State,
    pub status: u8,
}

impl From<Result<State, Refusal>> for Opened {
    ghost from_gives = { λ r opened. opened ≡ opened_of r };

    fn from(r: Result<State, Refusal>) -> Opened {
        match r {
            Ok(state) => Opened { state, status: 0 },
            Err(refusal) => Opened {
                state: opening::none(),
                status: refusal.into(),
            },
        }
    }
}

// What an advance hands C: the state comes back in refused calls too.
#[repr(C)]
#[derive(Clone, Copy)]
pub struct Advanced {
    pub status: u8,
    pub pieces: usize,
    pub state: State,
}

// What a writing hands C: the length of the text, 0 where the call is refused.
#[repr(C)]
#[derive(Clone, Copy)]
pub struct Written {
    pub status: u8,
    pub len: usize,
}

impl State {
    // Whether all rows of a unit are done. The state of zeros is of no unit.
    pub fn finished(&self) -> bool
        ensures { result ≡ is_finished self.now }
    {
        self.op != 0 && self.done == self.given.h
    }
}
