// The luma rows of a chroma unit: each is a part of the luma plane or of a saved border, padded into the second ring.
ghost use Rattle.std.specs.Prelude.{◌≡◌, ◌++◌, ◌+◌, ◌*◌, ◌-◌, ◌^◌, ◌≤◌, ◌<◌, length, replicate, take, drop};
ghost use Rattle.std.proofs.lemmas.List.Edits.{sets};
ghost use Rattle.definition.specs.declared.Operation.TheVariants.{Chroma};
ghost use Rattle.definition.specs.Limits.{height_limit};
ghost use Rattle.definition.specs.Rows.{luma_row_bytes, luma_rows_at};
ghost use Rattle.definition.specs.Leaves.{source};
ghost use Rattle.model.proofs.Rows.{first_row};
ghost use Rattle.model.proofs.Opening.{filled_rows};
ghost use Rattle.units.specs.LumaFrom.{LumaFits, luma_from};
ghost use Rattle.units.specs.Padded.{luma_padded};

use crate::rows::first_row;
use crate::unit::LumaRows;
use bounds::is_set;
use definition::{LUMA_ROW_BYTES, LUMA_ROWS_AT, Operation, ROW_ORIGIN, STATE_BYTES};
use operations::luma_step;

impl<'a> LumaRows<'a> {
    // The luma row that starts at a byte of the plane or of a saved border, with the one a stride below it where it is read, padded. One list in place of two and a flag, with `unwrap` in place
    // of `let _` here and in the other rows and runs, was tried: 4 by 4 chroma units took 4 % more.
    fn row_from(
        &self,
        saved: &[u8],
        from_saved: bool,
        at: usize,
        stride: usize,
    ) -> [u8; LUMA_ROW_BYTES]
        requires { LumaFits self.now.given (length (source from_saved self.now.lent.now.luma.now saved.now)) at stride }
        ensures { result ≡ luma_from self.now.given (source from_saved self.now.lent.now.luma.now saved.now) at stride }
    {
        let g = self.given;
        let w = g.w * luma_step(g.ss_hor);
        let mut row = [0u8; LUMA_ROW_BYTES];
        // Proved to be Ok.
        let _ = padding::backup_row_luma_8bpc(
            &mut row,
            ROW_ORIGIN,
            self.lent.luma,
            saved,
            from_saved,
            at,
            stride,
            w,
            g.edges,
            g.ss_hor,
            g.ss_ver,
            g.kind,
        );
        row
    }

    // The luma plane's rows beside row y of the unit.
    fn plane_row(&self, y: usize) -> [u8; LUMA_ROW_BYTES]
        requires y_bound { y ≤ height_limit + 2 }
        requires luma_fits { let g = self.now.given in LumaFits g (length self.now.lent.now.luma.now) (g.luma_off + y * 2 ^ g.ss_ver * g.luma_stride) g.luma_stride }
        ensures { let g = self.now.given in result ≡ luma_from g self.now.lent.now.luma.now (g.luma_off + y * 2 ^ g.ss_ver * g.luma_stride) g.luma_stride }
    {
        let g = self.given;
        let first = y * luma_step(g.ss_ver);
        self.row_from(
            self.lent.luma,
            false,
            g.luma_off + first * g.luma_stride,
            g.luma_stride,
        )
    }

    // The luma row beside row y of the unit, or below it.
    fn lower_luma_row(&self, y: usize) -> [u8; LUMA_ROW_BYTES]
        requires { y < self.now.given.h + 2 }
        ensures { result ≡ luma_padded self.now (y + 2) }
    {
        let g = self.given;
        let saved = self.lent.luma_bottom;
        if y < g.h {
            return self.plane_row(y);
        }
        if is_set(g.edges, 5) {
            return self.plane_row(y);
        }
        if is_set(g.edges, 3) {
            if y == g.h {
                return self.row_from(saved, true, g.luma_bottom_off, g.luma_stride);
            }
            return self.row_from(saved, true, g.luma_bottom_off + g.luma_stride, 0);
        }
        self.plane_row(g.h - 1)
    }

    // The luma row beside row r - 2, above the unit. That r is not before the first row is asked here and by two more: a type for r would hold one number alone, of the unit beside it.
    fn upper_luma_row(&self, r: usize) -> [u8; LUMA_ROW_BYTES]
        requires { (first_row Chroma self.now.given ≤ r) × (r < 2) }
        ensures { result ≡ luma_padded self.now r }
    {
        let g = self.given;
        let saved = self.lent.luma_top;
        if is_set(g.edges, 4) {
            let back = (2 - r) * luma_step(g.ss_ver);
            return self.row_from(
                saved,
                false,
                g.luma_off - back * g.luma_stride,
                g.luma_stride,
            );
        }
        if r == 0 {
            return self.row_from(saved, true, g.luma_top_off, 0);
        }
        if g.ss_ver == 0 {
            return self.row_from(saved, true, g.luma_top_off + g.luma_stride, 0);
        }
        self.row_from(saved, true, g.luma_top_off, g.luma_stride)
    }

    // The luma row beside chroma row r - 2, padded.
    fn padded_luma_row(&self, r: usize) -> [u8; LUMA_ROW_BYTES]
        requires { (first_row Chroma self.now.given ≤ r) × (r < self.now.given.h + 4) }
        ensures { result ≡ luma_padded self.now r }
    {
        if r < 2 {
            return self.upper_luma_row(r);
        }
        self.lower_luma_row(r - 2)
    }

    // The luma row beside chroma row r - 2, padded into a slot behind the chroma rows: of another length, at another place and from other lists than `Unit::pad_row`.
    pub(crate) fn pad_luma_row(&self, r: usize, rows: &mut [u8; STATE_BYTES], slot: usize)
        requires from { (first_row Chroma self.now.given ≤ r) × (r < self.now.given.h + 4) }
        requires into { slot ≤ 4 }
        ensures { rows.new ≡ sets rows.old (luma_rows_at + slot * luma_row_bytes) (luma_padded self.now r) }
    {
        let row = self.padded_luma_row(r);
        let at = LUMA_ROWS_AT + slot * LUMA_ROW_BYTES;
        rows[at..at + LUMA_ROW_BYTES].copy_from_slice(&row);
    }

    // The chroma rows as they are, and behind them the luma rows that an opening pads.
    pub(crate) fn open_luma_rows(&self, rows: &mut [u8; STATE_BYTES])
        requires { drop luma_rows_at rows.old ≡ replicate (5 * luma_row_bytes) 0 }
        ensures { rows.new ≡ take luma_rows_at rows.old ++ filled_rows luma_row_bytes (first_row Chroma self.now.given) (luma_padded self.now) (replicate (5 * luma_row_bytes) 0) 4 }
    {
        for n in first_row(Operation::Chroma, self.given)..4 {
            self.pad_luma_row(n, rows, n);
        }
    }
}
