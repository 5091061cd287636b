// A text that grows at its end, in memory of a fixed size: the project uses no heap. It keeps its first N bytes and leaves out what is behind them, so that every call is answered.
#![tactic(auto)]

ghost use Rattle.std.specs.Prelude.{◌≡◌, ℕ, cond, [], ◌∷◌, ◌++◌, ◌≤◌, ◌<◌, ltb, length, take, drop, decimal, None, Some};
ghost use Rattle.definition.specs.Card.{line_text, hex_text, row_text, end_of, glyph as Card·glyph};
ghost use Rattle.definition.specs.StateText.{several_text, list_text, number_limit, byte_limit, InField};

use itoa::Buffer;
use std::marker::Model;

// Behind the text its memory has zeros alone, so that the text says all that the fields do: the type is Copy.
#[derive(Clone, Copy)]
pub struct Text<const N: usize> {
    len: usize,
    bytes: [u8; N],
}

impl<const N: usize> Model for Text<N> {
    ghost use Rattle.std.specs.Prelude.{◌≡◌, ℕ, List, ◌++◌, ◌-◌, ◌≤◌, length, take, drop, replicate};
    ghost use Rattle.std.proofs.Common.{◌∙◌, ap, sym, subst, length-take-le, take-append-drop};

    ghost Value = { List ℕ };

    ghost view = { λ t. take t.len t.bytes };

    ghost invariant = { λ t. (t.len ≤ N) × (length t.bytes ≡ N) × (drop t.len t.bytes ≡ replicate (N - t.len) 0) };

    ghost inverse = { λ text. record { len = length text; bytes = text ++ replicate (N - length text) 0 } };

    ghost inverse_ok = { λ t h.
        let kept = length-take-le t.len t.bytes (subst (λ n. t.len ≤ n) (sym h.1) h.0) in
        let whole = ap (λ n. take t.len t.bytes ++ replicate (N - n) 0) kept ∙ ap (λ zeros. take t.len t.bytes ++ zeros) (sym h.2) ∙ take-append-drop t.len t.bytes in
        λ i. record { len = kept i; bytes = whole i } };
}

// What ends number k of n: a comma, and byte 10 behind the last.
pub fn end_of(n: usize, k: usize) -> u8
    ensures { result ≡ end_of n k }
{
    if k.checked_add(1) == Some(n) {
        b'\n'
    } else {
        b','
    }
}

fn glyph(d: u8) -> u8
    requires { d < 16 }
    ensures { result ≡ Card·glyph d }
{
    if d < 10 { b'0' + d } else { b'a' + (d - 10) }
}

impl<const N: usize> Text<N> {
    pub fn new() -> Self
        ensures { result ≡ [] }
    {
        Text {
            len: 0,
            bytes: [0; N],
        }
    }

    // The text alone, without the memory behind it.
    pub fn as_bytes(&self) -> &[u8]
        ensures { result.now ≡ self.now }
    {
        &self.bytes[..self.len]
    }

    fn push(&mut self, byte: u8)
        ensures { self.new ≡ take N (self.old ++ (byte ∷ [])) }
    {
        if self.len < N {
            self.bytes[self.len] = byte;
            self.len += 1;
        }
    }

    pub fn put_word(&mut self, word: &[u8])
        ensures { self.new ≡ take N (self.old ++ word.now) }
    {
        // That the text is within its memory is known where a field is used: so here, and below.
        let _ = &self.len;
        for byte in word {
            self.push(*byte);
        }
    }

    fn put_number(&mut self, n: usize)
        ensures { self.new ≡ take N (self.old ++ decimal n) }
    {
        let mut digits = Buffer::new();
        self.put_word(digits.format(n).as_bytes());
    }

    // A line of a name and a number. The clause `in_field`, here and below, says what the types say: so a caller knows how long its text is.
    #[tactic(auto, using(crate::proofs::Cuts::cut_both), unfolding(definition::specs::Card::line_text))]
    pub fn put_line(&mut self, name: &[u8], n: usize)
        ensures in_field { n ≤ number_limit }
        ensures text_after { self.new ≡ take N (self.old ++ line_text name.now n) }
    {
        self.put_word(name);
        self.put_number(n);
        self.push(b'\n');
    }

    // Number 0, number 1, .. of n, commas between them.
    fn put_numbers<F: Fn(usize) -> usize>(&mut self, n: usize, number: F)
        requires { (k : ℕ) → k < n → F.pre number k }
        ensures { (f : ℕ → ℕ) → ((k r : ℕ) → k < n → F.post number k r → r ≡ f k) → self.new ≡ take N (self.old ++ several_text (λ k. decimal (f k) ++ (end_of n k ∷ [])) n) }
    {
        let _ = &self.len;
        for k in 0..n {
            self.put_number(number(k));
            self.push(end_of(n, k));
        }
    }

    // A line of a name and numbers, commas between them.
    #[tactic(auto, using(crate::proofs::Cuts::cut_both), unfolding(definition::specs::StateText::list_text, definition::specs::StateText::numbers_text))]
    pub fn put_list(&mut self, name: &[u8], list: &[usize])
        ensures in_field { InField number_limit (length list.now) list.now }
        ensures text_after { self.new ≡ take N (self.old ++ list_text name.now (length list.now) list.now) }
    {
        self.put_word(name);
        self.put_numbers(list.len(), |k| list[k]);
    }

    // .. and of classes.
    #[tactic(auto, using(crate::proofs::Cuts::cut_both), unfolding(definition::specs::StateText::list_text, definition::specs::StateText::numbers_text))]
    pub fn put_classes(&mut self, name: &[u8], list: &[u8])
        ensures in_field { InField byte_limit (length list.now) list.now }
        ensures text_after { self.new ≡ take N (self.old ++ list_text name.now (length list.now) list.now) }
    {
        self.put_word(name);
        self.put_numbers(list.len(), |k| usize::from(list[k]));
    }

    #[tactic(auto, using(crate::proofs::Cuts::cut_hex))]
    fn put_hex(&mut self, row: &[u8])
        ensures { self.new ≡ take N (self.old ++ hex_text row.now) }
    {
        let _ = &self.len;
        for sample in row {
            self.push(glyph(*sample / 16));
            self.push(glyph(*sample % 16));
        }
    }

    // A row's line: two hex digits for each sample.
    #[tactic(auto, using(crate::proofs::Cuts::cut_both), unfolding(definition::specs::Card::row_text))]
    pub fn put_row(&mut self, row: &[u8])
        ensures { self.new ≡ take N (self.old ++ row_text row.now) }
    {
        self.put_word(b"row=");
        self.put_hex(row);
        self.push(b'\n');
    }

    // The text at the front of a list that is lent, whole or not at all.
    pub fn write_to(&self, out: &mut [u8]) -> Option<usize>
        ensures value { result ≡ cond (ltb (length out.old) (length self.now)) None (Some (length self.now)) }
        ensures out_after { out.new ≡ cond (ltb (length out.old) (length self.now)) out.old (self.now ++ drop (length self.now) out.old) }
    {
        let text = self.as_bytes();
        let n = text.len();
        if out.len() < n {
            return None;
        }
        out[..n].copy_from_slice(text);
        Some(n)
    }
}
