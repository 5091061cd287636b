// The answer to a card: the bytes that are printed, by definition a function of the bytes that were read.
#![tactic(auto)]

ghost use Rattle.std.specs.Prelude.{◌≡◌, true, ◌++◌, ◌*◌, ◌/◌, ◌≤◌, ◌<◌, length, take};
ghost use Rattle.definition.specs.Blocks.{side, pieces_of};
ghost use Rattle.definition.specs.Refusals.{sized};
ghost use Rattle.definition.specs.Limits.{width_limit, height_limit};
ghost use Rattle.definition.specs.Card.{card_answer, skip_entry, head_text, rows_text, spread as Card·spread};
ghost use Rattle.card_answer.specs.Answers.{text_size};
ghost use Rattle.card_answer.specs.Put.{plane_of, unit_text};

use card_reader::{Card, ROW_LINE};
use definition::{BLOCK_ROW_LIMIT, Given, HEIGHT_LIMIT, Lists, NO_LISTS, Operation, SIDE};
use text::Text;

// The bytes of the longest answer: the lines of status 0 and of filtered, and the rows.
const TEXT_SIZE: usize = 23 + HEIGHT_LIMIT * ROW_LINE;

// The text of an answer, of which nothing is left out: none is longer.
pub type Answer = Text<TEXT_SIZE>;

// Number i of a unit's skip list: four for each block row, the first used.
fn skip_at(skip: &[u16; BLOCK_ROW_LIMIT], i: usize) -> u16
    requires { i < height_limit }
    ensures { result ≡ skip_entry skip.now i }
{
    if i % SIDE == 0 { skip[i / SIDE] } else { 0 }
}

fn spread(skip: &[u16; BLOCK_ROW_LIMIT]) -> [u16; HEIGHT_LIMIT]
    ensures { result ≡ Card·spread skip.now }
{
    std::array::from_fn(|i| skip_at(skip, i))
}

// Restores the unit of a card: the plane is its rows, w bytes apart, and no edge bit is set. `skip` is the unit's skip list.
fn restore<'a>(card: &'a Card, skip: &'a [u16; HEIGHT_LIMIT], plane: &mut [u8]) -> usize
    requires { (sized width_limit card.now.w ≡ true) × (sized height_limit card.now.h ≡ true) × (length plane.old ≡ card.now.w * card.now.h) }
    ensures pieces { result ≡ pieces_of skip.now (card.now.w / side) 0 card.now.h }
    ensures plane_after { plane.new ≡ plane_of card.now.w card.now.h card.now.filter skip.now plane.old }
{
    let given = Given {
        w: card.w,
        h: card.h,
        stride: card.w,
        ..Given::default()
    };
    let lists = Lists {
        filters: &card.filter,
        skip,
        ..NO_LISTS
    };
    whole::restore(Operation::Luma, given, plane, &lists).unwrap()
}

// The lines of status and filtered.
fn put_head(out: &mut Answer, status: usize, pieces: usize)
    ensures { out.new ≡ take text_size (out.old ++ head_text status pieces) }
{
    out.put_line(b"status=", status);
    out.put_line(b"filtered=", pieces);
}

// h rows of a plane, w samples each.
fn put_rows(out: &mut Answer, w: usize, h: usize, plane: &[u8])
    requires { (length out.old ≤ text_size) × (0 < w) × (w * h ≤ length plane.now) }
    ensures { out.new ≡ take text_size (out.old ++ rows_text w plane.now h) }
{
    for row in plane.chunks(w).take(h) {
        out.put_row(row);
    }
}

// Restores the unit of a card, and puts its text: status 0, its pieces and its rows.
fn put_unit(card: &Card, out: &mut Answer)
    requires { (sized width_limit card.now.w ≡ true) × (sized height_limit card.now.h ≡ true) }
    ensures { out.new ≡ take text_size (out.old ++ unit_text card.now.w card.now.h card.now.filter (Card·spread card.now.skip) (take (card.now.w * card.now.h) card.now.rows)) }
{
    let skip = spread(&card.skip);
    let n = card.w * card.h;
    let mut rows = card.rows;
    let plane = &mut rows[..n];
    let pieces = restore(card, &skip, plane);
    put_head(out, 0, pieces);
    put_rows(out, card.w, card.h, plane);
}

// Reads a card, restores its unit and answers with the text that is printed for it.
pub fn answer_card(s: &[u8]) -> Answer
    ensures { result ≡ card_answer s.now }
{
    let mut answer = Answer::new();
    match card_reader::read_card(s) {
        Ok(card) => put_unit(&card, &mut answer),
        Err(refusal) => put_head(&mut answer, usize::from(u8::from(refusal)), 0),
    }
    answer
}
