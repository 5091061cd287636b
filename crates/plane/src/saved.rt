// What is kept of a plane before a unit is restored: the last rows of a row of units, and the last columns of a unit.
ghost use Rattle.std.specs.Prelude.{◌≡◌, cond, eqb, ◌+◌, ◌*◌, ◌-◌, ◌≤◌, length, get_or};
ghost use Rattle.std.proofs.lemmas.List.Edits.{sets};
ghost use Rattle.definition.specs.Rows.{tab};
ghost use Rattle.definition.specs.Limits.{unit_size_limit};
ghost use Rattle.plane_laws.proofs.Unit.{Before};

use crate::cut::PlaneUnit;
use definition::UNIT_SIZE_LIMIT;

// The rows and columns beside a unit that its filter reads, and the bytes to a row of a left list, of which those are the last.
pub const BORDER: usize = 4;

const LEFT_ROW: usize = 6;

pub const LEFT_BYTES: usize = LEFT_ROW * UNIT_SIZE_LIMIT;

impl<'a> PlaneUnit<'a> {
    // By the first unit of a row of units: the last four rows of that row go to scratch at `to`. Rows stand without gaps.
    pub fn save_rows(&self, scratch: &mut [u8], to: usize, p: &[u8])
        requires { let u = self.now in ((u.y + u.h) * u.plane.w ≤ length p.now) × (to + 4 * u.plane.w ≤ length scratch.old) }
        ensures { let u = self.now in scratch.new ≡ cond (eqb u.x 0) (sets scratch.old to (tab (4 * u.plane.w) (λ j. get_or p.now ((u.y + u.h - 4) * u.plane.w + j) 0))) scratch.old }
    {
        let first = self.x == 0;
        if first {
            let from = (self.y + self.h - BORDER) * self.plane.w;
            let n = BORDER * self.plane.w;
            // Not by the library's `copy_from_slice`: it became a call of C's memmove, a name that the archive would ask for.
            for j in 0..n {
                scratch[to + j] = p[from + j];
            }
        }
    }

    // A left list with the four columns before column x beside the unit's rows: the last four of six bytes to a row.
    pub fn columns_before(&self, p: &[u8], x: usize) -> [u8; LEFT_BYTES]
        requires { let u = self.now in (4 ≤ x) × (x ≤ u.plane.w) × ((u.y + u.h) * u.plane.w ≤ length p.now) }
        ensures { let u = self.now in (length result ≡ 6 * unit_size_limit) × Before u.plane.w u.y x u.h p.now result }
    {
        let mut r = [0; LEFT_BYTES];
        for j in 0..self.h {
            let from = (self.y + j) * self.plane.w + (x - BORDER);
            let at = LEFT_ROW * j + (LEFT_ROW - BORDER);
            r[at..at + BORDER].copy_from_slice(&p[from..from + BORDER]);
        }
        r
    }
}
