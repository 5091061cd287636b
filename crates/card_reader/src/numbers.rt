// Numbers of up to 64 bits and lines of them, as the text of a state has them.
ghost use Rattle.std.specs.Prelude.{◌≡◌, ◌≤◌, length, drop, IfSome};
ghost use Rattle.definition.specs.StateText.{number_limit, byte_limit, digits_from, number_at, line_at, list_at};
ghost use Rattle.card_reader.specs.Answers.{reading_of, line_of};

use crate::{read_byte, read_digit, read_several, read_word};
use text::end_of;

// Digits from a place on, and the byte that ends them.
fn read_digits(s: &[u8], at: usize, end: u8, limit: usize) -> Option<(usize, usize)>
    ensures { reading_of result ≡ digits_from limit end 0 (drop at s.now) at }
{
    let mut number = 0usize;
    for p in at..s.len() {
        if let Some(next) = read_byte(s, p, end) {
            return Some((number, next));
        }
        let (digit, _) = read_digit(s, p)?;
        number = number.checked_mul(10)?.checked_add(digit)?;
        if limit < number {
            return None;
        }
    }
    None
}

// A number of at most a limit, without leading zeros, and the byte that ends it.
#[tactic(auto, unfolding(definition::specs::StateText::number_at))]
fn read_number(s: &[u8], at: usize, end: u8, limit: usize) -> Option<(usize, usize)>
    ensures value { reading_of result ≡ number_at limit s.now end at }
    ensures within { IfSome result (λ r. r.0 ≤ limit) }
{
    let (digit, next) = read_digit(s, at)?;
    if digit == 0 {
        return Some((0, read_byte(s, next, end)?));
    }
    read_digits(s, at, end, limit)
}

fn read_class(s: &[u8], at: usize, end: u8) -> Option<(u8, usize)>
    ensures { reading_of result ≡ number_at byte_limit s.now end at }
{
    let (class, next) = read_number(s, at, end, usize::from(u8::MAX))?;
    Some((class as u8, next))
}

// A line of a name and a number.
#[tactic(auto, unfolding(definition::specs::StateText::line_at))]
pub fn read_line(s: &[u8], at: usize, name: &[u8]) -> Option<(usize, usize)>
    ensures { reading_of result ≡ line_at name.now s.now at }
{
    let next = read_word(s, at, name)?;
    read_number(s, next, b'\n', usize::MAX)
}

// A line of a name and as many numbers as the list is long.
#[tactic(auto, unfolding(definition::specs::StateText::list_at, definition::specs::StateText::numbers_at))]
fn read_list_into(s: &[u8], at: usize, name: &[u8], list: &mut [usize]) -> Option<usize>
    ensures { line_of result list.new ≡ list_at name.now number_limit (length list.old) s.now at }
{
    let p = read_word(s, at, name)?;
    let n = list.len();
    read_several(
        p,
        list,
        |k, at| read_number(s, at, end_of(n, k), usize::MAX),
    )
}

// .. and of classes.
#[tactic(auto, unfolding(definition::specs::StateText::list_at, definition::specs::StateText::numbers_at))]
fn read_classes_into(s: &[u8], at: usize, name: &[u8], list: &mut [u8]) -> Option<usize>
    ensures { line_of result list.new ≡ list_at name.now byte_limit (length list.old) s.now at }
{
    let p = read_word(s, at, name)?;
    let n = list.len();
    read_several(p, list, |k, at| read_class(s, at, end_of(n, k)))
}

// Both for callers outside, who have no list that a refused line leaves half filled.
pub fn read_list<const N: usize>(s: &[u8], at: usize, name: &[u8]) -> Option<([usize; N], usize)>
    ensures { reading_of result ≡ list_at name.now number_limit N s.now at }
{
    let mut list = [0usize; N];
    let next = read_list_into(s, at, name, &mut list)?;
    Some((list, next))
}

pub fn read_classes<const N: usize>(s: &[u8], at: usize, name: &[u8]) -> Option<([u8; N], usize)>
    ensures { reading_of result ≡ list_at name.now byte_limit N s.now at }
{
    let mut list = [0u8; N];
    let next = read_classes_into(s, at, name, &mut list)?;
    Some((list, next))
}
