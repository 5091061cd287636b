// The ring of padded rows: a row is padded into a slot, and ten indices say which slot holds which row of the window.
ghost use Rattle.std.specs.Prelude.{◌≡◌, [], ◌∷◌, ◌++◌, cond, ltb, max, ◌+◌, ◌*◌, ◌-◌, ◌≤◌, ◌<◌, length, replicate, pos};
ghost use Rattle.std.proofs.lemmas.List.Edits.{sets};
ghost use Rattle.definition.specs.Limits.{height_limit};
ghost use Rattle.definition.specs.Rows.{tab, row_bytes, row_origin, index_count, state_bytes};
ghost use Rattle.definition.specs.Padding.{row_at};
ghost use Rattle.definition.specs.Units.{border, own_row};
ghost use Rattle.definition.specs.Leaves.{lpf_status, padded_row};
ghost use Rattle.history.proofs.Ring.{wrap, slid};
ghost use Rattle.model.proofs.Rows.{first_row, below_rows, own};
ghost use Rattle.model.proofs.Opening.{filled, open_index};
ghost use Rattle.model.proofs.Step.{Fetched};
ghost use Rattle.units.specs.Padded.{lent_of, padded, row_from};
ghost use Rattle.units.specs.Step.{ring_of, Stays};

use crate::State;
use crate::unit::Unit;
use bounds::is_set;
use definition::{Given, INDEX_COUNT, Operation, ROW_BYTES, ROW_ORIGIN, STATE_BYTES};
use operations::{border_of, top_rows};
use std::array::from_fn;

// Rows below the unit that are padded anew: the plane's own, or saved ones.
fn rows_below(op: Operation, edges: usize) -> usize
    ensures { result ≡ below_rows op edges }
{
    if is_set(edges, 5) {
        return border_of(op);
    }
    if is_set(edges, 3) { 2 } else { 0 }
}

// The first row that is padded anew, counted from e rows above the unit.
pub fn first_row(op: Operation, g: Given) -> usize
    ensures { result ≡ first_row op g }
{
    border_of(op) - top_rows(op, g.edges)
}

// Whether row r is padded anew, and does not repeat the one before it; r counted as above.
pub fn is_own(op: Operation, g: Given, r: usize) -> bool
    requires { g.h ≤ height_limit }
    ensures { result ≡ own op g r }
{
    r < g.h + border_of(op) + rows_below(op, g.edges)
}

impl<'a> Unit<'a> {
    // Row y of the unit, padded with the left list before it.
    fn own_row(&self, y: usize) -> [u8; ROW_BYTES]
        requires { y < self.now.given.h }
        ensures { let u = self.now in result ≡ row_from u.given.edges u.given.w (border u.op) (own_row u.op u.given (lent_of u) u.plane.now y) }
    {
        let g = self.given;
        let e = border_of(self.op);
        let at = g.off + y * g.stride;
        let mut row = [0u8; ROW_BYTES];
        // Proved to be Ok, and so below: `unwrap` was tried, and is slower (`LumaRows::row_from`).
        let _ = padding::backup_row_8bpc(
            &mut row,
            ROW_ORIGIN,
            self.plane,
            at,
            self.lent.left,
            6 * y + 6,
            g.w,
            e,
            g.edges,
        );
        row
    }

    // A row that starts at a byte of src, padded with what stands before it there.
    fn saved_row(&self, src: &[u8], at: usize) -> [u8; ROW_BYTES]
        requires { let u = self.now in lpf_status row_bytes row_origin (length src.now) at u.given.w (border u.op) u.given.edges ≡ 0 }
        ensures { let u = self.now in result ≡ row_from u.given.edges u.given.w (border u.op) (row_at src.now (pos at)) }
    {
        let g = self.given;
        let e = border_of(self.op);
        let mut row = [0u8; ROW_BYTES];
        let _ = padding::backup_row_lpf_8bpc(&mut row, ROW_ORIGIN, src, at, g.w, e, g.edges);
        row
    }

    // Row y of the unit, or, below it, what stands for it.
    fn lower_row(&self, y: usize) -> [u8; ROW_BYTES]
        requires { y < self.now.given.h + border self.now.op }
        ensures { result ≡ padded self.now (y + border self.now.op) }
    {
        let g = self.given;
        if y < g.h {
            return self.own_row(y);
        }
        if is_set(g.edges, 5) {
            return self.saved_row(self.plane, g.off + y * g.stride);
        }
        if is_set(g.edges, 3) {
            let n = (y - g.h).min(1);
            return self.saved_row(self.lent.bottom, g.bottom_off + n * g.stride);
        }
        self.own_row(g.h - 1)
    }

    // Row r - e of the unit, e the border, padded: from the plane with the left list, from the plane below the unit, or from a saved border.
    fn padded_row(&self, r: usize) -> [u8; ROW_BYTES]
        requires { let u = self.now in (first_row u.op u.given ≤ r) × (r < u.given.h + border u.op + border u.op) }
        ensures { result ≡ padded self.now r }
    {
        let g = self.given;
        let e = border_of(self.op);
        if r < e {
            let n = r - first_row(self.op, g);
            return self.saved_row(self.lent.top, g.top_off + n * g.stride);
        }
        self.lower_row(r - e)
    }

    // Row r - e padded into a slot. Every row but the luma rows of a chroma unit is padded here: row_four.py counts them by it.
    pub(crate) fn pad_row(&self, r: usize, rows: &mut [u8; STATE_BYTES], slot: usize)
        requires from { let u = self.now in (first_row u.op u.given ≤ r) × (r < u.given.h + border u.op + border u.op) }
        requires into { slot < index_count }
        ensures { rows.new ≡ sets rows.old (slot * row_bytes) (padded self.now r) }
    {
        let row = self.padded_row(r);
        let at = slot * ROW_BYTES;
        rows[at..at + ROW_BYTES].copy_from_slice(&row);
    }

    // The rows that an opening pads: those before the first that is padded anew stay 0.
    pub(crate) fn open_rows(&self) -> [u8; STATE_BYTES]
        ensures { let u = self.now in result ≡ filled u.op u.given (lent_of u) u.plane.now (replicate state_bytes 0) (border u.op + border u.op) }
    {
        let mut rows = [0u8; STATE_BYTES];
        for n in first_row(self.op, self.given)..2 * border_of(self.op) {
            self.pad_row(n, &mut rows, n);
        }
        rows
    }
}

// The slot after one, of n.
fn next_slot(slot: usize, n: usize) -> usize
    requires { slot < n }
    ensures { result ≡ wrap n slot }
{
    if slot + 1 == n { 0 } else { slot + 1 }
}

// Index j of a window of which n rows are padded before the first row: row j, or, before row f, row f.
pub fn open_index(f: usize, j: usize, n: usize) -> usize
    ensures { result ≡ cond (ltb j n) (max j f) 0 }
{
    if j < n { j.max(f) } else { 0 }
}

// The indices that an opening of a luma or classed unit hands out.
pub fn open_indices(op: Operation, g: Given) -> [usize; INDEX_COUNT]
    ensures { result ≡ tab 8 (open_index op g) ++ (0 ∷ 0 ∷ []) }
{
    let f = first_row(op, g);
    from_fn(|j| open_index(f, j, 8))
}

// Each of the first m indices takes the value of the one behind it.
pub fn slide(indices: &mut [usize], m: usize)
    requires { m < length indices.old }
    ensures { indices.new ≡ slid m indices.old }
{
    indices.copy_within(1..m + 1, 0);
}

impl State {
    // The newest row of the window, the m-th where m is twice the border: into the next slot, or the row before it again.
    pub(crate) fn fetch_row(&mut self, unit: &Unit)
        requires { (self.old.done < unit.now.given.h) × (self.old.next ≤ border unit.now.op + border unit.now.op) }
        ensures fetched { let u = unit.now in Fetched u.op u.given (lent_of u) u.plane.now self.old.done (ring_of self.old) (ring_of self.new) }
        ensures stays { Stays self.old self.new }
        ensures same_classes { self.new.classes ≡ self.old.classes }
    {
        let e = border_of(unit.op);
        let m = e + e;
        let slot = self.next;
        self.next = next_slot(slot, m + 1);
        if is_own(unit.op, unit.given, self.done + m) {
            unit.pad_row(self.done + m, &mut self.rows, slot);
            self.indices[m] = slot;
        } else {
            self.indices[m] = self.indices[m - 1];
        }
    }
}
