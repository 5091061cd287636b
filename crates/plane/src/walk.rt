// The walk over the units of a plane, row by row from the top left.
ghost use Rattle.std.specs.Prelude.{◌≡◌, [], ◌*◌, ◌≤◌, length};
ghost use Rattle.definition.specs.declared.Operation.TheVariants.{Luma};
ghost use Rattle.definition.specs.Limits.{scratch_rows};
ghost use Rattle.definition.specs.Calls.{luma_lent};
ghost use Rattle.definition.specs.Planes.{plane_after, plane_pieces};
ghost use Rattle.whole.specs.Whole.{restored_of, Whole};
ghost use Rattle.plane_laws.proofs.Cut.{unit_given};

use crate::cut::{Plane, PlaneUnit};
use crate::saved::{BORDER, LEFT_BYTES};
use definition::{Given, Lists, NO_LISTS, Operation, Refusal};

impl<'a> PlaneUnit<'a> {
    // The unit restored, lent the four rows above it from byte `bank` of `above` on.
    fn restore(
        &self,
        p: &mut [u8],
        left: &'a [u8],
        above: &'a [u8],
        bank: usize,
        masks: &'a [u16],
    ) -> Result<usize, Refusal>
        requires { bank ≤ 4 * self.now.plane.w }
        ensures { let u = self.now in Whole Luma (restored_of result) (unit_given u.plane.w u.plane.h u.y u.x u.w u.h bank) (luma_lent left.now above.now [] u.plane.filter.now masks.now) p.old p.new }
    {
        let g = Given {
            w: self.w,
            h: self.h,
            edges: self.edges(),
            stride: self.plane.w,
            off: self.y * self.plane.w + self.x,
            top_off: bank + self.x,
            ..Given::default()
        };
        let lent = Lists {
            left,
            top: above,
            filters: self.plane.filter,
            skip: masks,
            ..NO_LISTS
        };
        whole::restore(Operation::Luma, g, p, &lent)
    }
}

impl<'a> Plane<'a> {
    // The first `count` units, or all. Of a row of units, the last four rows are saved before its first unit is restored, and stand above the next row; the rows above it
    // stand in the other bank of scratch. Of a unit, the last four columns are listed before it is restored, and stand to the left of the next. The place and the bank are
    // moved by hand: loops over rows and columns are no plainer, as the walk ends after `count` units and the bank changes with the row of units.
    pub fn restore_units(&self, p: &mut [u8], count: usize, scratch: &mut [u8]) -> usize
        requires room { self.now.h * self.now.w ≤ length p.old }
        requires banks { scratch_rows * self.now.w ≤ length scratch.old }
        ensures value { result ≡ plane_pieces self.now.w self.now.h self.now.unit count self.now.skip.now }
        ensures p_after { p.new ≡ plane_after self.now.w self.now.h self.now.unit count p.old self.now.skip.now self.now.filter.now }
    {
        let n = count.min(self.unit_count());
        let mut left = [0; LEFT_BYTES];
        let mut bank = 0;
        let mut y = 0;
        let mut x = 0;
        let mut pieces = 0;
        for _k in 0..n {
            let here = PlaneUnit {
                plane: *self,
                y,
                x,
                w: self.unit.min(self.w - x),
                h: self.unit.min(self.h - y),
            };
            let other = BORDER * self.w - bank;
            here.save_rows(scratch, other, p);
            let next = here.columns_before(p, x + here.w);
            let r = here.restore(p, &left, &*scratch, bank, &here.masks());
            pieces += r.unwrap();
            left = next;
            if x + self.unit < self.w {
                x += self.unit;
            } else {
                x = 0;
                y += self.unit;
                bank = other;
            }
        }
        pieces
    }
}
