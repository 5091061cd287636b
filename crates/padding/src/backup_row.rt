// A row with the list of its left samples. A saved row is padded in the same way, with itself as that list.
ghost use Rattle.std.specs.Prelude.{◌≡◌, true, cond, ◌+◌, ◌-◌, ◌≤◌, pos, length, get_or, OnOk};
ghost use Rattle.std.proofs.lemmas.List.Edits.{sets};
ghost use Rattle.definition.specs.Rows.{tab};
ghost use Rattle.definition.specs.Answers.{status_from};
ghost use Rattle.definition.specs.Padding.{row_at, after};
ghost use Rattle.definition.specs.Refusals.{beside};
ghost use Rattle.padding.specs.Steps.{RowFits};
ghost use Rattle.definition.specs.Leaves.{backup_status, padded_row};

use crate::beside::{Sides, copy_into, fill_into};
use definition::Refusal;

// Where a row stands in what is lent: w bytes of a list from src_o on go to o, with edge_len bytes before and behind them. Its left samples end at left_off.
#[derive(Clone, Copy)]
pub struct Row {
    pub o: usize,
    pub src_o: usize,
    pub left_off: usize,
    pub w: usize,
    pub edge_len: usize,
    pub edges: usize,
}

impl Row {
    // Of what is lent it asks the lengths.
    #[tactic(auto, unfolding(definition::specs::Leaves::backup_status))]
    pub fn status(self, dst: usize, src: usize, left: usize) -> Result<(), Refusal>
        ensures status_value { status_from result ≡ backup_status dst self.o src self.src_o left self.left_off self.w self.edge_len self.edges }
        ensures inside { OnOk result (RowFits dst self.o src self.src_o left self.left_off self.w self.edge_len self.edges) }
    {
        let Row {
            o,
            src_o,
            left_off,
            w,
            edge_len,
            edges,
        } = self;
        let sides = Sides::of(edges);
        if 1 <= w
            && edge_len <= o
            && bounds::room(o, w, edge_len, dst)
            && bounds::room(src_o, w, sides.behind(edge_len), src)
            && (!sides.left || edge_len <= left_off && left_off <= left)
        {
            Ok(())
        } else {
            Err(Refusal::Outside)
        }
    }

    // The bytes before the row: those of the left list where they are lent, else the row's first one repeats.
    #[tactic(auto, using(crate::proofs::Put::part_tab))]
    fn before_into(self, dst: &mut [u8], left: &[u8], lent: bool, first: u8)
        requires { (self.edge_len ≤ self.o) × (self.o ≤ length dst.old) × (lent ≡ true → (self.edge_len ≤ self.left_off) × (self.left_off ≤ length left.now)) }
        ensures { dst.new ≡ sets dst.old (self.o - self.edge_len) (tab self.edge_len (λ j. cond lent (get_or left.now (self.left_off - self.edge_len + j) 0) first)) }
    {
        let at = self.o - self.edge_len;
        if lent {
            copy_into(dst, at, &left[self.left_off - self.edge_len..self.left_off]);
        } else {
            fill_into(dst, at, first, self.edge_len);
        }
    }

    // The row and the bytes behind it: where they are lent they are copied with it, else its last byte repeats.
    fn row_into(self, dst: &mut [u8], src: &[u8], lent: bool)
        requires { (1 ≤ self.w) × (self.o + self.w + self.edge_len ≤ length dst.old) × (self.src_o + self.w + beside lent self.edge_len ≤ length src.now) }
        ensures { dst.new ≡ sets (sets dst.old self.o (tab self.w (λ j. get_or src.now (self.src_o + j) 0))) (self.o + self.w) (tab self.edge_len (λ j. cond lent (get_or src.now (self.src_o + self.w + j) 0) (get_or src.now (self.src_o + self.w - 1) 0))) }
    {
        let end = self.src_o + self.w;
        if lent {
            copy_into(dst, self.o, &src[self.src_o..end + self.edge_len]);
        } else {
            copy_into(dst, self.o, &src[self.src_o..end]);
            fill_into(dst, self.o + self.w, src[end - 1], self.edge_len);
        }
    }

    // The row with what stands before and behind it.
    pub fn pad(self, dst: &mut [u8], src: &[u8], left: &[u8])
        requires { RowFits (length dst.old) self.o (length src.now) self.src_o (length left.now) self.left_off self.w self.edge_len self.edges }
        ensures { dst.new ≡ sets dst.old (self.o - self.edge_len) (padded_row self.edges self.w self.edge_len (after left.now self.left_off (row_at src.now (pos self.src_o)))) }
    {
        let sides = Sides::of(self.edges);
        self.before_into(dst, left, sides.left, src[self.src_o]);
        self.row_into(dst, src, sides.right);
    }
}
