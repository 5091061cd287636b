// One row restored in stretches: each stretch of unmasked blocks, of one class where there are classes, is one filter run into its part of the plane.
ghost use Rattle.std.specs.Prelude.{◌≡◌, cond, ℕ, ◌+◌, ◌*◌, ◌-◌, ◌/◌, ◌%◌, ◌≤◌, ◌<◌, length, get_or, replicate, slice_range};
ghost use Rattle.std.proofs.lemmas.List.Edits.{sets};
ghost use Rattle.definition.specs.Blocks.{side, mask_at};
ghost use Rattle.definition.specs.Limits.{width_limit, block_column_limit};
ghost use Rattle.definition.specs.Rows.{tab, index_count};
ghost use Rattle.definition.specs.Sample.{limit8};
ghost use Rattle.definition.specs.Units.{classed};
ghost use Rattle.definition.specs.Refusals.{index_limit};
ghost use Rattle.definition.specs.Calls.{lists_lent};
ghost use Rattle.model.proofs.Cells.{set_start, HasSet, cell_of};
ghost use Rattle.units.specs.Restored.{columns_of, seen, Restorable};

use crate::State;
use crate::masks::mask_of_row;
use definition::{BLOCK_COLUMN_LIMIT, Lists, Operation, ROW_ORIGIN, SIDE};
use operations::luma_step;

// A filter, or a set, as an array: N numbers from number `at` on.
fn set_at<T: Copy, const N: usize>(numbers: &[T], at: usize) -> [T; N]
    requires { at + N ≤ length numbers.now }
    ensures { result ≡ slice_range numbers.now at (at + N) }
{
    *numbers[at..at + N].as_array().unwrap()
}

// Where a class's set begins; a unit without classes has one.
fn set_start(op: Operation, class: u8) -> usize
    ensures { result ≡ set_start op class }
{
    match op {
        Operation::User => 18 * usize::from(class),
        Operation::Pretrained => 13 * usize::from(class),
        Operation::Luma | Operation::Chroma => 0,
    }
}

impl State {
    // Samples x0 .. x1 - 1 of a row, of one class, by the operation, which is a value (docs/DECISIONS.md): one filter run into the part of the plane that they stand in. Pretrained sets are of 16 bits, all others of 8.
    // A struct of its numbers would be made anew for each stretch, and hold nothing more.
    fn run(
        &self,
        op: Operation,
        p: &mut [u8],
        at: usize,
        x0: usize,
        x1: usize,
        lent: &Lists,
        class: u8,
    )
        requires x0_le_x1 { (x0 ≤ x1) × (x1 ≤ width_limit) × (at + x1 ≤ length p.old) }
        requires by_index { (j : ℕ) → j < index_count → get_or self.now.indices j 0 ≤ index_limit op }
        requires has_set { HasSet op (length (lists_lent op lent.now).filters) class }
        ensures { p.new ≡ sets p.old (at + x0) (tab (x1 - x0) (λ i. seen op self.now (lists_lent op lent.now) class (x0 + i))) }
    {
        let rows = &self.rows;
        let indices = &self.indices;
        let from = set_start(op, class);
        let col0 = ROW_ORIGIN + x0;
        let a = at + x0;
        let b = at + x1;
        let n = b - a;
        let part = &mut p[a..b];
        // Proved to be Ok: `unwrap` was tried, and is slower (`LumaRows::row_from`).
        let _ = match op {
            Operation::Luma | Operation::User => {
                let set = set_at::<i8, 16>(lent.filters, from);
                filter::ns_wiener_fir_run(part, rows, indices, col0, &set, n)
            }
            Operation::Pretrained => {
                let set = set_at::<i16, 13>(lent.wide, from);
                filter::pc_wiener_fir_run(part, rows, indices, col0, &set, n)
            }
            Operation::Chroma => {
                let set = set_at::<i8, 18>(lent.filters, from);
                let step = luma_step(self.given.ss_hor);
                let lcol0 = ROW_ORIGIN + x0 * step;
                filter::ns_wiener_uv_fir_run(part, rows, indices, col0, lcol0, step, &set, n)
            }
        };
    }

    // The classes that stretches are told by: without classes all blocks are of one, whatever a state kept.
    fn told_apart(&self, op: Operation) -> [u8; BLOCK_COLUMN_LIMIT]
        ensures { result ≡ cond (classed op) self.now.classes (replicate block_column_limit 0) }
    {
        if operations::is_classed(op) {
            self.classes
        } else {
            [0u8; BLOCK_COLUMN_LIMIT]
        }
    }

    // Row `done`, where its window is at hand.
    pub(crate) fn restore(&self, op: Operation, p: &mut [u8], lent: &Lists)
        requires { Restorable op self.now (lists_lent op lent.now) (length p.old) }
        ensures { let s = self.now in let l = lists_lent op lent.now in let at = s.given.off + s.done * s.given.stride in p.new ≡ sets p.old at (tab s.given.w (λ x. cell_of limit8 op s.rows s.indices (columns_of s) l.filters s.classes (mask_at l.skip s.done) (get_or p.old (at + x) 0) x)) }
    {
        let mask = mask_of_row(lent.skip, self.done);
        let at = self.given.off + self.done * self.given.stride;
        let told = self.told_apart(op);
        let bw = self.given.w / SIDE;
        // Where a stretch ends is known once it is found: an iterator over stretches would hide this loop, and not spare it.
        let mut bx = 0;
        while bx < bw {
            let s = blocks::class_stretch(mask, &told, bx, bw).unwrap();
            let start = s.start;
            let end = s.end;
            if start < bw {
                self.run(op, p, at, start * SIDE, end * SIDE, lent, told[start]);
            }
            bx = end;
        }
    }
}
