// Reads a card (docs/SCOPE.md, 'The card') from a slice, line by line from any place on. What a function reads it answers with the place behind it, and
// None where the bytes are not of its form. A place moves on only past bytes that stand there, so it never passes the input's end.
#![tactic(auto)]

ghost use Rattle.std.specs.Prelude.{◌≡◌, ◌*◌, ◌≤◌, ◌<◌, ℕ, length};
ghost use Rattle.definition.specs.Card.{Reading, several, ended, decimal_at, tap_at, pair_at, group_at, word_at, size_at, filter_at, skip_at, row_at, rows_at, end_of, lists_at, unit_at, meaning, negated as Card·negated, unsigned as Card·unsigned, word as Card·word};
ghost use Rattle.definition.specs.Limits.{width_limit, height_limit};
ghost use Rattle.card_reader.specs.Answers.{reading_of, line_of, numbered, card_of, unit_of};
ghost use Rattle.card_reader.specs.Lines.{digit_at, hex_at, Joins};

mod numbers;

use definition::{BLOCK_ROW_LIMIT, HEIGHT_LIMIT, Refusal, SIDE, WIDTH_LIMIT};
pub use numbers::{read_classes, read_line, read_list};
use text::end_of;

// The samples of the largest unit.
pub const PLANE_SIZE: usize = WIDTH_LIMIT * HEIGHT_LIMIT;

// The bytes of the longest line of a row, and of skip groups.
pub const ROW_LINE: usize = 5 + 2 * WIDTH_LIMIT;

const SKIP_LINE: usize = 5 + 5 * BLOCK_ROW_LIMIT;

// So many bytes decide what an input means: all lines of the largest unit, and one more (`enough` in crates/card_laws/proofs/Reach.antt).
pub const INPUT_SIZE: usize = 5 + 6 + 6 + 8 + 87 + SKIP_LINE + HEIGHT_LIMIT * ROW_LINE + 1;

// The unit of a card. Behind the lists of its size stand zeros: memory is fixed, since the project uses no heap.
#[derive(Clone, Copy)]
pub struct Card {
    pub w: usize,
    pub h: usize,
    pub filter: [i8; 16],
    pub skip: [u16; BLOCK_ROW_LIMIT],
    pub rows: [u8; PLANE_SIZE],
}

// The place behind a byte that has to stand here.
pub fn read_byte(s: &[u8], at: usize, byte: u8) -> Option<usize>
    ensures { line_of result Card·word ≡ ended s.now byte Card·word at }
{
    if s.get(at) == Some(&byte) {
        Some(at + 1)
    } else {
        None
    }
}

// A digit.
fn read_digit(s: &[u8], at: usize) -> Option<(usize, usize)>
    ensures { reading_of result ≡ digit_at s.now at }
{
    match s.get(at) {
        Some(b @ b'0'..=b'9') => Some((usize::from(b - b'0'), at + 1)),
        _ => None,
    }
}

// A hex digit in lower case.
fn read_hex(s: &[u8], at: usize) -> Option<(u8, usize)>
    ensures { reading_of result ≡ hex_at s.now at }
{
    match s.get(at) {
        Some(b @ b'0'..=b'9') => Some((b - b'0', at + 1)),
        Some(b @ b'a'..=b'f') => Some((b - b'a' + 10, at + 1)),
        _ => None,
    }
}

// A decimal: one to three digits, no leading zero, and the byte that ends them.
#[tactic(auto, unfolding(definition::specs::Card::decimal_at, definition::specs::Card::decimal_of))]
fn read_decimal(s: &[u8], at: usize, end: u8) -> Option<(usize, usize)>
    ensures { reading_of result ≡ decimal_at s.now end at }
{
    let (x, p) = read_digit(s, at)?;
    if let Some(next) = read_byte(s, p, end) {
        return Some((x, next));
    }
    if x == 0 {
        return None;
    }
    let (y, q) = read_digit(s, p)?;
    if let Some(next) = read_byte(s, q, end) {
        return Some((10 * x + y, next));
    }
    let (z, r) = read_digit(s, q)?;
    let next = read_byte(s, r, end)?;
    Some((100 * x + 10 * y + z, next))
}

// A filter number: it may have a minus, never before 0, and lies in -128 .. 127. The definition has both signs apart, and so do these two: in one the sign would be a flag.
fn negated(v: usize, at: usize) -> Option<(i8, usize)>
    ensures { reading_of result ≡ Card·negated v at }
{
    if v == 0 {
        return None;
    }
    let v = i16::try_from(v).ok()?;
    Some((i8::try_from(-v).ok()?, at))
}

fn unsigned(v: usize, at: usize) -> Option<(i8, usize)>
    ensures { reading_of result ≡ Card·unsigned v at }
{
    Some((i8::try_from(v).ok()?, at))
}

#[tactic(auto, unfolding(definition::specs::Card::tap_at))]
fn read_tap(s: &[u8], at: usize, end: u8) -> Option<(i8, usize)>
    ensures { reading_of result ≡ tap_at s.now end at }
{
    if let Some(digits) = read_byte(s, at, b'-') {
        let (v, next) = read_decimal(s, digits, end)?;
        return negated(v, next);
    }
    let (v, next) = read_decimal(s, at, end)?;
    unsigned(v, next)
}

// Two hex digits.
#[tactic(auto, unfolding(definition::specs::Card::pair_at))]
fn read_pair(s: &[u8], at: usize) -> Option<(u8, usize)>
    ensures { reading_of result ≡ pair_at s.now at }
{
    let (high, p) = read_hex(s, at)?;
    let (low, next) = read_hex(s, p)?;
    Some((16 * high + low, next))
}

// Four hex digits and the byte that ends them.
#[tactic(auto, unfolding(definition::specs::Card::group_at))]
fn read_group(s: &[u8], at: usize, end: u8) -> Option<(u16, usize)>
    ensures { reading_of result ≡ group_at s.now end at }
{
    let (high, p) = read_pair(s, at)?;
    let (low, q) = read_pair(s, p)?;
    let next = read_byte(s, q, end)?;
    Some((u16::from_be_bytes([high, low]), next))
}

// The bytes of a word.
pub fn read_word(s: &[u8], at: usize, word: &[u8]) -> Option<usize>
    ensures { line_of result Card·word ≡ word_at s.now word.now at }
{
    let mut next = at;
    for byte in word {
        next = read_byte(s, next, *byte)?;
    }
    Some(next)
}

// A line of one number, as w or h: its name, `=` included, and a decimal.
#[tactic(auto, unfolding(definition::specs::Card::size_at))]
pub fn read_size(s: &[u8], at: usize, name: &[u8]) -> Option<(usize, usize)>
    ensures { reading_of result ≡ size_at s.now name.now at }
{
    let next = read_word(s, at, name)?;
    read_decimal(s, next, b'\n')
}

// As many values as the list is long, one behind the other; value k is read by `read`.
fn read_several<T: Copy, F: Fn(usize, usize) -> Option<(T, usize)>>(
    at: usize,
    list: &mut [T],
    read: F,
) -> Option<usize>
    requires { (k : ℕ) → k < length list.old → (p : ℕ) → F.pre read k p }
    ensures { (f : ℕ → ℕ → Reading T) → ((k p : ℕ) (r : _) → k < length list.old → F.post read k p r → reading_of r ≡ f k p) → line_of result list.new ≡ several f (length list.old) at }
{
    let mut next = at;
    for (k, item) in list.iter_mut().enumerate() {
        let (value, p) = read(k, next)?;
        *item = value;
        next = p;
    }
    Some(next)
}

// The filter's line: 16 decimals.
#[tactic(auto, unfolding(definition::specs::Card::filter_at))]
pub fn read_filter(s: &[u8], at: usize) -> Option<([i8; 16], usize)>
    ensures { reading_of result ≡ filter_at s.now at }
{
    let p = read_word(s, at, b"filter=")?;
    let mut filter = [0i8; 16];
    let next = read_several(p, &mut filter, |k, at| read_tap(s, at, end_of(16, k)))?;
    Some((filter, next))
}

// The skip line: four hex digits for each block row.
#[tactic(auto, unfolding(definition::specs::Card::skip_at))]
fn read_skip(s: &[u8], at: usize, skip: &mut [u16]) -> Option<usize>
    ensures { line_of result skip.new ≡ skip_at s.now (length skip.old) at }
{
    let p = read_word(s, at, b"skip=")?;
    let n = skip.len();
    read_several(p, skip, |k, at| read_group(s, at, end_of(n, k)))
}

// A row's line: two hex digits for each sample.
#[tactic(auto, unfolding(definition::specs::Card::row_at))]
fn read_row_into(s: &[u8], at: usize, row: &mut [u8]) -> Option<usize>
    ensures { line_of result row.new ≡ row_at s.now (length row.old) at }
{
    let p = read_word(s, at, b"row=")?;
    let end = read_several(p, row, |_, at| read_pair(s, at))?;
    read_byte(s, end, b'\n')
}

// .. of a row of known length.
pub fn read_row<const N: usize>(s: &[u8], at: usize) -> Option<([u8; N], usize)>
    ensures { reading_of result ≡ row_at s.now N at }
{
    let mut row = [0u8; N];
    let next = read_row_into(s, at, &mut row)?;
    Some((row, next))
}

// h rows of w samples, w apart. `chunks_mut` was tried and not proved: it promises nothing of what the list that it cuts is left with.
fn read_rows(s: &[u8], at: usize, w: usize, h: usize, p: &mut [u8]) -> Option<usize>
    requires { w * h ≤ length p.old }
    ensures { Joins (rows_at s.now w h at) result p.old p.new }
{
    let mut next = at;
    for y in 0..h {
        let from = y * w;
        let to = from + w;
        next = read_row_into(s, next, &mut p[from..to])?;
    }
    Some(next)
}

// The lists of a unit of w by h. `let else` is the form that the scope asks for at each line's answer, here and in `read_unit`.
#[tactic(auto, unfolding(definition::specs::Card::lists_at, crate::specs::Answers::unit_of))]
fn read_lists(s: &[u8], at: usize, w: usize, h: usize) -> Result<(Card, usize), Refusal>
    requires { (w ≤ width_limit) × (h ≤ height_limit) }
    ensures { numbered result ≡ unit_of (lists_at s.now w h at) }
{
    let Some(found) = read_filter(s, at) else {
        return Err(Refusal::Card);
    };
    // A pattern of its own: an array that is taken out within `Some(..)` gets no proof.
    let (filter, p1) = found;
    let mut skip = [0u16; BLOCK_ROW_LIMIT];
    let n = h / SIDE;
    let Some(p2) = read_skip(s, p1, &mut skip[..n]) else {
        return Err(Refusal::Card);
    };
    let mut rows = [0u8; PLANE_SIZE];
    let Some(next) = read_rows(s, p2, w, h, &mut rows) else {
        return Err(Refusal::Card);
    };
    let card = Card {
        w,
        h,
        filter,
        skip,
        rows,
    };
    Ok((card, next))
}

// Reads the unit at a place, and tells the place behind it.
#[tactic(auto, unfolding(definition::specs::Card::unit_at, crate::specs::Answers::unit_of))]
pub fn read_unit(s: &[u8], at: usize) -> Result<(Card, usize), Refusal>
    ensures { numbered result ≡ unit_of (unit_at s.now at) }
{
    let Some(p1) = read_word(s, at, b"op=y\n") else {
        return Err(Refusal::Card);
    };
    let Some((w, p2)) = read_size(s, p1, b"w=") else {
        return Err(Refusal::Card);
    };
    if !bounds::is_sized(w, WIDTH_LIMIT) {
        return Err(Refusal::Width);
    }
    let Some((h, p3)) = read_size(s, p2, b"h=") else {
        return Err(Refusal::Card);
    };
    if !bounds::is_sized(h, HEIGHT_LIMIT) {
        return Err(Refusal::Height);
    }
    let Some(p4) = read_word(s, p3, b"edges=0\n") else {
        return Err(Refusal::Card);
    };
    read_lists(s, p4, w, h)
}

// Reads a card, the meaning of all the bytes: a unit that ends where they do.
#[tactic(auto, unfolding(definition::specs::Card::meaning, crate::specs::Answers::unit_of, crate::specs::Answers::card_of))]
pub fn read_card(s: &[u8]) -> Result<Card, Refusal>
    ensures { numbered result ≡ card_of (meaning s.now) }
{
    let (card, next) = read_unit(s, 0)?;
    if next != s.len() {
        return Err(Refusal::Card);
    }
    Ok(card)
}
