// A unit that is put away and taken back: the text of its state.
ghost use Rattle.std.specs.Prelude.{◌≡◌, cond, ◌&&◌, ◌++◌, ◌≤◌, ltb, length, take};
ghost use Rattle.definition.specs.Rows.{tab, index_count, row_bytes, luma_row_bytes};
ghost use Rattle.definition.specs.Units.{chromatic};
ghost use Rattle.definition.specs.Card.{row_at};
ghost use Rattle.definition.specs.StateText.{op_text, op_at, ten_text, ten_at, state_text, lines_in, row_width, text_limit, Bytes};
ghost use Rattle.units.specs.Texts.{kept_row, lines_of, StateInFields, shaped, written_of, WrittenState, state_found, state_in};
ghost use Rattle.card_reader.specs.Answers.{reading_of, line_of};
ghost use Rattle.card_reader.specs.Lines.{Joins};

use crate::{State, Written};
use card_reader::{read_byte, read_classes, read_line, read_list, read_row, read_word};
use definition::{
    BLOCK_COLUMN_LIMIT, Given, INDEX_COUNT, LUMA_ROW_BYTES, Operation, ROW_BYTES, Refusal,
    STATE_BYTES, STATE_TEXT_LIMIT,
};
use operations::{is_chroma, number_of, operation_of};
use text::Text;

#[tactic(auto, unfolding(definition::specs::StateText::op_text))]
fn op_line(op: Operation) -> &'static [u8]
    ensures { result.now ≡ op_text op }
{
    match op {
        Operation::Luma => b"op=y\n",
        Operation::User => b"op=n\n",
        Operation::Pretrained => b"op=p\n",
        Operation::Chroma => b"op=c\n",
    }
}

// Whether row k of ten is luma's: of a chroma unit the last five are.
fn is_luma_row(op: Operation, k: usize) -> bool
    ensures { result ≡ (chromatic op && ltb 4 k) }
{
    is_chroma(op) && 4 < k
}

fn row_width(op: Operation, k: usize) -> usize
    ensures { result ≡ row_width op k }
{
    if is_luma_row(op, k) {
        LUMA_ROW_BYTES
    } else {
        ROW_BYTES
    }
}

fn put_rows(text: &mut Text<STATE_TEXT_LIMIT>, op: Operation, rows: &[u8; STATE_BYTES])
    requires { length text.old ≤ text_limit }
    ensures bytes { Bytes rows.now }
    ensures text_after { text.new ≡ take text_limit (text.old ++ ten_text (tab index_count (kept_row op rows.now))) }
{
    let mut from = 0;
    for k in 0..INDEX_COUNT {
        let to = from + row_width(op, k);
        text.put_row(&rows[from..to]);
        from = to;
    }
}

#[tactic(auto, unfolding(definition::specs::StateText::op_at, definition::specs::StateText::letter_at))]
fn read_op(s: &[u8], at: usize) -> Option<(Operation, usize)>
    ensures { reading_of result ≡ op_at s.now at }
{
    let letter = read_word(s, at, b"op=")?;
    let op = match s.get(letter)? {
        b'y' => Operation::Luma,
        b'n' => Operation::User,
        b'p' => Operation::Pretrained,
        b'c' => Operation::Chroma,
        _ => return None,
    };
    Some((op, read_byte(s, letter + 1, b'\n')?))
}

// A row into its place among the ten.
fn read_kept_row(s: &[u8], at: usize, is_luma: bool, place: &mut [u8]) -> Option<usize>
    requires { length place.old ≡ cond is_luma luma_row_bytes row_bytes }
    ensures { line_of result place.new ≡ row_at s.now (length place.old) at }
{
    if is_luma {
        let (row, next) = read_row::<LUMA_ROW_BYTES>(s, at)?;
        place.copy_from_slice(&row);
        return Some(next);
    }
    let (row, next) = read_row::<ROW_BYTES>(s, at)?;
    place.copy_from_slice(&row);
    Some(next)
}

fn read_rows(s: &[u8], at: usize, op: Operation, rows: &mut [u8; STATE_BYTES]) -> Option<usize>
    ensures { Joins (ten_at op s.now at) result rows.old rows.new }
{
    let mut next = at;
    let mut from = 0;
    for k in 0..INDEX_COUNT {
        let to = from + row_width(op, k);
        next = read_kept_row(s, next, is_luma_row(op, k), &mut rows[from..to])?;
        from = to;
    }
    Some(next)
}

// The state of a text, whatever its shape.
#[tactic(auto, unfolding(definition::specs::StateText::lines_in, definition::specs::StateText::lines_at))]
fn read_state(s: &[u8]) -> Option<State>
    ensures { result ≡ state_found (lines_in s.now) }
{
    let (op, p1) = read_op(s, 0)?;
    let (w, p2) = read_line(s, p1, b"w=")?;
    let (h, p3) = read_line(s, p2, b"h=")?;
    let (edges, p4) = read_line(s, p3, b"edges=")?;
    let (done, p5) = read_line(s, p4, b"done=")?;
    let (classes, p6) = read_classes::<BLOCK_COLUMN_LIMIT>(s, p5, b"classes=")?;
    let (indices, p7) = read_list::<INDEX_COUNT>(s, p6, b"indices=")?;
    let (next, p8) = read_line(s, p7, b"next=")?;
    let mut rows = [0u8; STATE_BYTES];
    let p9 = read_rows(s, p8, op, &mut rows)?;
    let (strides, p10) = read_list::<2>(s, p9, b"strides=")?;
    let (offsets, p11) = read_list::<6>(s, p10, b"offsets=")?;
    let (pair, p12) = read_list::<2>(s, p11, b"pair=")?;
    let (kind, end) = read_line(s, p12, b"kind=")?;
    if end != s.len() {
        return None;
    }
    let given = Given {
        w,
        h,
        edges,
        stride: strides[0],
        luma_stride: strides[1],
        off: offsets[0],
        top_off: offsets[1],
        bottom_off: offsets[2],
        luma_off: offsets[3],
        luma_top_off: offsets[4],
        luma_bottom_off: offsets[5],
        ss_hor: pair[0],
        ss_ver: pair[1],
        kind,
    };
    Some(State {
        op: number_of(op),
        given,
        done,
        next,
        classes,
        indices,
        rows,
    })
}

impl From<Result<usize, Refusal>> for Written {
    ghost from_gives = { λ r written. written ≡ written_of r };

    fn from(r: Result<usize, Refusal>) -> Written {
        match r {
            Ok(len) => Written { status: 0, len },
            Err(refusal) => Written {
                status: refusal.into(),
                len: 0,
            },
        }
    }
}

impl State {
    // The operation of a state, where its shape is right.
    fn shaped(&self) -> Result<Operation, Refusal>
        ensures { result ≡ shaped self.now }
    {
        let op = operation_of(self.op).ok_or(Refusal::State)?;
        let (done, h) = (self.done, self.given.h);
        if refusals::bad_shape(op, false, done, h, &self.indices, self.next) {
            return Err(Refusal::State);
        }
        Ok(op)
    }

    // The text of a state of an operation.
    fn text(&self, op: Operation) -> Text<STATE_TEXT_LIMIT>
        ensures in_fields { StateInFields self.now }
        ensures value { result ≡ state_text (lines_of op self.now) }
    {
        let g = &self.given;
        let mut text = Text::new();
        text.put_word(op_line(op));
        text.put_line(b"w=", g.w);
        text.put_line(b"h=", g.h);
        text.put_line(b"edges=", g.edges);
        text.put_line(b"done=", self.done);
        text.put_classes(b"classes=", &self.classes[..]);
        text.put_list(b"indices=", &self.indices[..]);
        text.put_line(b"next=", self.next);
        put_rows(&mut text, op, &self.rows);
        text.put_list(b"strides=", &[g.stride, g.luma_stride]);
        text.put_list(
            b"offsets=",
            &[
                g.off,
                g.top_off,
                g.bottom_off,
                g.luma_off,
                g.luma_top_off,
                g.luma_bottom_off,
            ],
        );
        text.put_list(b"pair=", &[g.ss_hor, g.ss_ver]);
        text.put_line(b"kind=", g.kind);
        text
    }

    // Puts a unit away: its text at the front of a list that is lent, or nothing. The length is this state's own.
    #[tactic(auto, unfolding(crate::specs::Texts::text_of))]
    pub fn write(self, out: &mut [u8]) -> Result<usize, Refusal>
        ensures { WrittenState (written_of result) self out.old out.new }
    {
        let op = self.shaped()?;
        match self.text(op).write_to(out) {
            Some(len) => Ok(len),
            None => Err(Refusal::Outside),
        }
    }

    // Takes a unit back: the state of a text. 17 precedes 13.
    #[tactic(auto, unfolding(crate::specs::Texts::state_in))]
    pub fn read(text: &[u8]) -> Result<State, Refusal>
        ensures { result ≡ state_in text.now }
    {
        let Some(state) = read_state(text) else {
            return Err(Refusal::Text);
        };
        state.shaped()?;
        Ok(state)
    }
}
