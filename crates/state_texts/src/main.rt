// Reads the texts of data/texts, whole and damaged ones, one after another; data/lengths has their lengths, two bytes each, the low one first.
// For each it prints the status, and where a state was read the text that this state is written as.
// The texts and what has to be printed, the file stdout, were made by `compare state_texts 1 FOLDER`, by a reader and a writer in Rust after the scope alone.
#![tactic(auto)]

ghost use Rattle.std.specs.Prelude.{◌≡◌, ◌++◌, ◌≤◌, length, take, Ok};
ghost use Rattle.definition.specs.StateText.{text_limit};
ghost use Rattle.units.specs.Texts.{state_in, text_of};
ghost use Rattle.state_texts.specs.Answers.{answer_size, answered};

use definition::STATE_TEXT_LIMIT;
use std::fs::{self, File};
use std::io::{self, Write};
use text::Text;
use units::State;

// The bytes of the longest answer: a status of one digit, and a text.
const ANSWER_SIZE: usize = 9 + STATE_TEXT_LIMIT;

// Writes a state behind its status.
fn put_state(answer: &mut Text<ANSWER_SIZE>, state: State, text: &[u8])
    requires { (text_of state ≡ Ok text.now) × (length text.now ≤ text_limit) }
    ensures { answer.new ≡ take answer_size (answer.old ++ text.now) }
{
    let mut space = [0u8; STATE_TEXT_LIMIT];
    let n = state.write(&mut space).unwrap();
    answer.put_word(&space[..n]);
}

// What is printed for a text.
fn answer(text: &[u8]) -> Text<ANSWER_SIZE>
    ensures { result ≡ answered (state_in text.now) }
{
    let mut answer = Text::new();
    match State::read(text) {
        Ok(state) => {
            answer.put_line(b"status=", 0);
            put_state(&mut answer, state, text);
        }
        Err(refusal) => answer.put_line(b"status=", usize::from(u8::from(refusal))),
    }
    answer
}

// Answers the next text, and tells whether there was one.
fn answer_next<W: Write>(lengths: &mut File, texts: &mut File, out: &mut W) -> io::Result<bool> {
    let mut length = [0u8; 2];
    if card_print::read_full(lengths, &mut length)? != 2 {
        return Ok(false);
    }
    let n = usize::from(u16::from_le_bytes(length));
    let mut space = [0u8; 65536];
    let got = card_print::read_full(texts, &mut space[..n])?;
    out.write_all(answer(&space[..got]).as_bytes())?;
    Ok(true)
}

fn main(rt: HostRuntime) -> io::Result<()> {
    let mut lengths = fs::open(&rt, "lengths")?;
    let mut texts = fs::open(&rt, "texts")?;
    // A proved loop has to end, and nothing says that a file does.
    for _ in 0..u64::MAX {
        if !answer_next(&mut lengths, &mut texts, &mut rt.stdout())? {
            break;
        }
    }
    Ok(())
}
