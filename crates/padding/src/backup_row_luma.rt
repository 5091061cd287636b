// A luma row of a chroma unit: its columns are mixed of one or two rows of luma, and four more stand on both sides.
ghost use Rattle.std.specs.Prelude.{◌≡◌, true, ℕ, cond, ◌+◌, ◌-◌, ◌%◌, ◌<◌, ◌≤◌, eqb, pos, length, get_or, take, drop, IfOk, OnOk};
ghost use Rattle.std.proofs.lemmas.List.Edits.{sets};
ghost use Rattle.definition.specs.Rows.{tab};
ghost use Rattle.definition.specs.Answers.{status_from};
ghost use Rattle.definition.specs.Padding.{mixed, row_at, even_only, last_sampled};
ghost use Rattle.definition.specs.Refusals.{bad_sampling};
ghost use Rattle.padding.specs.Steps.{columns, repeated, InsideLuma};
ghost use Rattle.definition.specs.Leaves.{luma_byte, luma_status, lower_at, source};

use crate::beside::{Sides, copy_into};
use definition::Refusal;

// The length of the slice that the row is a part of.
pub fn source_len<'a>(plane: &'a [u8], saved: &'a [u8], from_saved: bool) -> usize
    ensures { result ≡ length (source from_saved plane.now saved.now) }
{
    if from_saved { saved.len() } else { plane.len() }
}

// The part of the luma plane, or of a saved border, that one luma row is padded from. It is cut where it is chosen: a slice that is chosen first, and cut by its user, was tried, and a row of
// kind 0 took a third more.
fn luma_row<'a>(plane: &'a [u8], saved: &'a [u8], from_saved: bool, at: usize, n: usize) -> &'a [u8]
    requires { at + n ≤ length (source from_saved plane.now saved.now) }
    ensures { result.now ≡ take n (drop at (source from_saved plane.now saved.now)) }
{
    if from_saved {
        &saved[at..at + n]
    } else {
        &plane[at..at + n]
    }
}

// How luma is taken for chroma: its subsampling, each 0 or 1, and the kind of mixing its rows, 0 to 2; numbers, as C hands them in: an enum would only name each once more.
#[derive(Clone, Copy)]
pub struct Sampling {
    ss_hor: usize,
    ss_ver: usize,
    kind: usize,
    ghost known: { (ss_hor ≤ 1) × (ss_ver ≤ ss_hor) × (kind ≤ 2) },
}

impl Sampling {
    pub fn of(ss_hor: usize, ss_ver: usize, kind: usize) -> Result<Sampling, Refusal>
        ensures status_value { status_from result ≡ cond (bad_sampling ss_hor ss_ver kind) 4 0 }
        ensures value { IfOk result (λ s. (s.ss_hor ≡ ss_hor) × (s.ss_ver ≡ ss_ver) × (s.kind ≡ kind)) }
    {
        if bounds::is_bad_sampling(ss_hor, ss_ver, kind) {
            return Err(Refusal::Sampling);
        }
        Ok(Sampling {
            ss_hor,
            ss_ver,
            kind,
        })
    }

    // 2 where only even columns are filled. It tests as mixed_at does: else a loop over one kind has a step that is not known, and takes five times as long.
    fn step(self) -> usize
        ensures { result ≡ cond (even_only self.ss_ver self.kind) 2 1 }
    {
        if self.ss_ver == 0 {
            1
        } else if self.kind == 0 {
            2
        } else {
            1
        }
    }

    fn lower_at(self, stride: usize) -> usize
        ensures { result ≡ lower_at self.ss_ver self.kind stride }
    {
        if self.ss_ver == 0 || 1 < self.kind {
            0
        } else {
            stride
        }
    }

    // Columns that are left over where luma is sampled by ss_hor + 1: a division by a number that is not known would cost more than the row.
    fn left_over(self, w: usize) -> usize
        ensures { result ≡ w % (self.ss_hor + 1) }
    {
        if self.ss_hor == 0 { 0 } else { w % 2 }
    }

    // The last luma column that is sampled.
    fn last_sampled(self, w: usize) -> usize
        requires { self.ss_hor + 1 ≤ w }
        ensures { result ≡ last_sampled self.ss_hor w }
    {
        if self.ss_hor == 0 { w - 1 } else { w - 2 }
    }

    // What stands at one column, for an upper row and a lower one a stride below it. The mean of four bytes is narrowed by `as`.
    fn mixed_at(self, row: &[u8], at: usize, stride: usize) -> u8
        requires stride_in_bounds { at + lower_at self.ss_ver self.kind stride < length row.now }
        requires stride_in_bounds_2 { even_only self.ss_ver self.kind ≡ true → at + 1 + stride < length row.now }
        ensures { result ≡ mixed self.ss_ver self.kind (row_at row.now (pos 0)) (row_at row.now (pos stride)) (pos at) }
    {
        let a = row[at];
        if self.ss_ver == 0 || 1 < self.kind {
            return a;
        }
        let b = row[at + stride];
        if self.kind == 1 {
            return a.midpoint(b);
        }
        let c = row[at + 1];
        let d = row[at + 1 + stride];
        ((u16::from(a) + u16::from(b) + u16::from(c) + u16::from(d)) / 4) as u8
    }

    // n columns from `at` on, or the even ones of them: column j takes f(j).
    fn fill_columns<F: Fn(usize) -> u8>(self, dst: &mut [u8], at: usize, n: usize, f: F)
        requires n_in_bounds { at + n ≤ length dst.old }
        requires n_value { even_only self.ss_ver self.kind ≡ true → n % 2 ≡ 0 }
        requires callable { (j : ℕ) → j < n → (even_only self.ss_ver self.kind ≡ true → j % 2 ≡ 0) → F.pre f j }
        ensures { (g : ℕ → ℕ) → ((j r : ℕ) → F.post f j r → r ≡ g j) → dst.new ≡ columns dst.old at n self.ss_ver self.kind g }
    {
        for j in (0..n).step_by(self.step()) {
            dst[at + j] = f(j);
        }
    }

    // n columns of a luma row to dst at `at`: where one row of luma gives each byte, they are copied.
    fn columns_into(self, dst: &mut [u8], at: usize, row: &[u8], stride: usize, n: usize)
        requires n_in_bounds { (at + n ≤ length dst.old) × (n + lower_at self.ss_ver self.kind stride ≤ length row.now) }
        requires n_value { even_only self.ss_ver self.kind ≡ true → n % 2 ≡ 0 }
        ensures { dst.new ≡ columns dst.old at n self.ss_ver self.kind (λ j. mixed self.ss_ver self.kind (row_at row.now (pos 0)) (row_at row.now (pos stride)) (pos j)) }
    {
        if self.lower_at(1) == 0 {
            copy_into(dst, at, &row[..n]);
        } else {
            self.fill_columns(dst, at, n, |j| self.mixed_at(row, j, stride));
        }
    }

    // Four columns beside a luma row, where none are lent: the one at `from` repeats.
    fn border_into(self, dst: &mut [u8], at: usize, from: usize, lent: usize)
        requires { (at + 4 ≤ length dst.old) × (from < length dst.old) }
        ensures { dst.new ≡ cond (eqb lent 0) (repeated dst.old at (get_or dst.old from 0) self.ss_ver self.kind) dst.old }
    {
        if lent == 0 {
            let v = dst[from];
            self.fill_columns(dst, at, 4, |_| v);
        }
    }
}

// Where a luma row stands in what is lent: w columns from src_o on go to o, with four before and behind them. The lower of two rows stands src_stride behind the upper.
#[derive(Clone, Copy)]
pub struct LumaRow {
    pub sampling: Sampling,
    pub o: usize,
    pub src_o: usize,
    pub src_stride: usize,
    pub w: usize,
    pub edges: usize,
}

impl LumaRow {
    // Of what is lent it asks the lengths.
    #[tactic(auto, unfolding(definition::specs::Leaves::luma_status))]
    pub fn status(self, dst: usize, src: usize) -> Result<(), Refusal>
        ensures status_value { status_from result ≡ luma_status dst self.o src self.src_o self.src_stride self.w self.edges self.sampling.ss_hor self.sampling.ss_ver self.sampling.kind }
        ensures inside { OnOk result (InsideLuma dst self.o src self.src_o self.src_stride self.w self.edges self.sampling.ss_hor self.sampling.ss_ver self.sampling.kind) }
    {
        let LumaRow {
            sampling,
            o,
            src_o,
            src_stride,
            w,
            edges,
        } = self;
        let sides = Sides::of(edges);
        let lower = sampling.lower_at(src_stride);
        if 1 <= w
            && 4 <= o
            && bounds::room(o, w, 4, dst)
            && sampling.left_over(w) == 0
            && bounds::room(src_o, lower, w + sides.behind(4), src)
            && sides.before(4) <= src_o
        {
            Ok(())
        } else {
            Err(Refusal::Outside)
        }
    }

    // The columns that are lent, and the borders that repeat beside them.
    pub fn pad<'a>(self, dst: &mut [u8], plane: &'a [u8], saved: &'a [u8], from_saved: bool)
        requires { InsideLuma (length dst.old) self.o (length (source from_saved plane.now saved.now)) self.src_o self.src_stride self.w self.edges self.sampling.ss_hor self.sampling.ss_ver self.sampling.kind }
        ensures { dst.new ≡ sets dst.old (self.o - 4) (tab (4 + self.w + 4) (luma_byte dst.old self.o (source from_saved plane.now saved.now) self.src_o self.src_stride self.w self.edges self.sampling.ss_hor self.sampling.ss_ver self.sampling.kind)) }
    {
        let LumaRow {
            sampling,
            o,
            src_o,
            src_stride,
            w,
            edges,
        } = self;
        let sides = Sides::of(edges);
        let left = sides.before(4);
        let right = sides.behind(4);
        let n = left + w + right;
        let lower = sampling.lower_at(src_stride);
        let row = luma_row(plane, saved, from_saved, src_o - left, n + lower);
        sampling.columns_into(dst, o - left, row, lower, n);
        sampling.border_into(dst, o - 4, o, left);
        sampling.border_into(dst, o + w, o + sampling.last_sampled(w), right);
    }
}
