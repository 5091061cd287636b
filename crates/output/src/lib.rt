// The standard output, for programs that print what they have and go on: what a write can't take is passed over, and is no error. What is written no contract can say.
#![tactic(auto)]

ghost use Rattle.std.specs.Prelude.{◌≡◌, ◌≤◌, IsOk};
ghost use Rattle.output.specs.declared.TheConstants.{SPACE};

use std::fmt::{self, Display, Write as _};
use std::io::Result;

#[derive(Clone, Copy)]
pub struct Output;

// Bytes that are written at once.
const SPACE: usize = 256;

// A text that is written in parts, as its bytes come.
#[derive(Drop)]
struct Parts {
    len: usize,
    space: [u8; SPACE],
    ghost inside: { len ≤ SPACE },
}

impl Parts {
    fn new() -> Parts {
        Parts {
            len: 0,
            space: [0; SPACE],
        }
    }

    // Writes what is kept.
    fn end(&mut self)
        ensures { self.new.len ≡ 0 }
    {
        io::write_all(1, &self.space[..self.len]);
        self.len = 0;
    }
}

impl fmt::Write for Parts {
    fn write_str(&mut self, piece: &str) -> fmt::Result {
        for byte in piece.as_bytes() {
            if self.len == SPACE {
                self.end();
            }
            self.space[self.len] = *byte;
            self.len += 1;
        }
        Ok(())
    }
}

impl Print for Output {
    fn print<D: Display + Drop>(&self, value: D) -> Result<()>
        ensures { IsOk result }
    {
        let mut parts = Parts::new();
        let _ = parts.write_fmt(value);
        parts.end();
        Ok(())
    }

    fn println<D: Display + Drop>(&self, value: D) -> Result<()>
        ensures { IsOk result }
    {
        let mut parts = Parts::new();
        let _ = parts.writeln(value);
        parts.end();
        Ok(())
    }

    fn write_all(&self, bytes: &[u8]) -> Result<()>
        ensures { IsOk result }
    {
        io::write_all(1, bytes);
        Ok(())
    }
}
