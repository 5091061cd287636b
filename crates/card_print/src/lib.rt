// What the programs that answer cards share: how bytes are read, and how an answer is printed.
#![tactic(auto)]

ghost use Rattle.std.specs.Prelude.{◌≡◌, ℕ, ◌<◌, ◌≤◌, length, take, IfOk, OnErr};
ghost use Rattle.std.specs.Io.KnownBytes.{Consumes, IsAtEnd};
ghost use Rattle.definition.specs.Card.{card_answer};

use std::io::{Read, Result};

// Reads bytes into space until it is full or they end, and tells how many. Where a read fails, what came before it stands at the start of space.
pub fn read_full<R: Read>(reader: &mut R, space: &mut [u8]) -> Result<usize>
    ensures fits { IfOk result (λ n. n ≤ length space.old) }
    ensures bytes { IfOk result (λ n. Consumes (R.remaining reader.old) (R.remaining reader.new) (take n space.new)) }
    ensures end { IfOk result (λ n. n < length space.old → IsAtEnd (R.remaining reader.new)) }
    ensures none_lost { OnErr result ((k : ℕ) × (k ≤ length space.old) × Consumes (R.remaining reader.old) (R.remaining reader.new) (take k space.new)) }
{
    // How far a read gets is known behind it: there is no range to go through.
    let mut n = 0;
    while n < space.len() {
        match reader.read(&mut space[n..])? {
            0 => break,
            got => n += got,
        }
    }
    Ok(n)
}

// Prints the answer to a card on standard output, and tells how long it is, also where a write fails. No contract can say what is written.
pub fn print_answer(card: &[u8]) -> usize
    ensures { result ≡ length (card_answer card.now) }
{
    let answer = card_answer::answer_card(card);
    let text = answer.as_bytes();
    io::write_all(1, text);
    text.len()
}
