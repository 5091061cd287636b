// Prints the answers to the cards of data/cards, one after another; data/lengths has their lengths, two bytes each, the low one first.
// The cards and the answers expected of them, the file stdout, were made by `compare cards 1 FOLDER`: samples are the Rust's, statuses those of a
// reader that was written in Rust from the scope alone.
#![tactic(auto)]

use std::fs::{self, File};
use std::io;

// Answers the next card, and tells whether there was one.
fn answer_next(lengths: &mut File, cards: &mut File) -> io::Result<bool> {
    let mut length = [0u8; 2];
    if card_print::read_full(lengths, &mut length)? != 2 {
        return Ok(false);
    }
    let n = usize::from(u16::from_le_bytes(length));
    let mut space = [0u8; 65536];
    let got = card_print::read_full(cards, &mut space[..n])?;
    card_print::print_answer(&space[..got]);
    Ok(true)
}

fn main(rt: HostRuntime) -> io::Result<()> {
    let mut lengths = fs::open(&rt, "lengths")?;
    let mut cards = fs::open(&rt, "cards")?;
    // A proved loop has to end, and nothing says that a file does.
    for _ in 0..u64::MAX {
        if !answer_next(&mut lengths, &mut cards)? {
            break;
        }
    }
    Ok(())
}
