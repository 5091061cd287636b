// How a plane is cut into units: how many there are, and the edge bits and the masks that a unit is lent.
ghost use Rattle.std.specs.Prelude.{◌≡◌, cond, ℕ, ◌+◌, ◌*◌, ◌/◌, ◌≤◌, ◌<◌, ltb, length, get_or};
ghost use Rattle.definition.specs.Blocks.{side};
ghost use Rattle.definition.specs.Limits.{plane_side_limit, unit_size_limit};
ghost use Rattle.definition.specs.Planes.{mask_bits, skip_numbers, unit_count};
ghost use Rattle.plane_laws.proofs.Order.{Grid};
ghost use Rattle.plane_laws.proofs.Cut.{Lies, unit_edges, gathered, unit_mask};

use definition::{MASK_BITS, SIDE, UNIT_SIZE_LIMIT};

// A bit of the edges where the plane goes on.
fn bit(on: bool, n: usize) -> usize
    ensures { (result ≡ cond on n 0) × (result ≤ n) }
{
    if on { n } else { 0 }
}

// The mask of bw blocks, of which the first is bit `from` of number `at`. The number behind it is read only where they reach into it.
fn gather(skip: &[u16], at: usize, from: usize, bw: usize) -> u16
    requires { (at < length skip.now) × (from < mask_bits) × (bw ≤ mask_bits) × (mask_bits < from + bw → at + 1 < length skip.now) }
    ensures { result ≡ gathered (get_or skip.now at 0) (cond (ltb mask_bits (from + bw)) (get_or skip.now (at + 1) 0) 0) from }
{
    let low = u32::from(skip[at]);
    // What is narrowed fits: a place is below 16, and a mask has 16 bits.
    if MASK_BITS < from + bw {
        let high = u32::from(skip[at + 1]);
        return (((low + 65536 * high) >> from) % 65536) as u16;
    }
    (low >> from) as u16
}

// A plane of w by h that is cut into units of `unit` by `unit`, with the filter and the masks of all of it.
#[derive(Clone, Copy)]
pub struct Plane<'a> {
    pub w: usize,
    pub h: usize,
    pub unit: usize,
    pub filter: &'a [i8],
    pub skip: &'a [u16],
    pub ghost grid: { Grid w h unit },
    pub ghost limits: { (w ≤ plane_side_limit) × (h ≤ plane_side_limit) × (unit ≤ unit_size_limit) },
    pub ghost taps: { length filter.now ≡ 16 },
    pub ghost masks: { h / side * skip_numbers w ≤ length skip.now },
    pub ghost small: { (i : ℕ) → get_or skip.now i 0 < 65536 },
}

impl<'a> Plane<'a> {
    pub fn unit_count(&self) -> usize
        ensures { result ≡ unit_count self.now.w self.now.h self.now.unit }
    {
        self.h.div_ceil(self.unit) * self.w.div_ceil(self.unit)
    }
}

// A unit of w by h samples at (y, x), which lies in its plane.
#[derive(Clone, Copy)]
pub struct PlaneUnit<'a> {
    pub plane: Plane<'a>,
    pub y: usize,
    pub x: usize,
    pub w: usize,
    pub h: usize,
    pub ghost lies: { Lies plane.w plane.h y x w h },
}

impl<'a> PlaneUnit<'a> {
    // Left and right where columns stand beside the unit, top and bottom integrated where rows do.
    pub fn edges(&self) -> usize
        ensures { let u = self.now in result ≡ unit_edges u.plane.w u.plane.h u.y u.x u.w u.h }
    {
        let left = bit(0 < self.x, 1);
        let right = bit(self.x + self.w < self.plane.w, 2);
        let top = bit(0 < self.y, 16);
        let bottom = bit(self.y + self.h < self.plane.h, 32);
        left + right + top + bottom
    }

    // Its masks: four numbers a block row, of which the first is used.
    pub fn masks(&self) -> [u16; UNIT_SIZE_LIMIT]
        ensures { let u = self.now in (length result ≡ unit_size_limit) × ((j : ℕ) → j < u.h / side → get_or result (4 * j) 0 ≡ unit_mask u.plane.w u.plane.skip.now (u.w / side) (u.y / side + j) (u.x / side)) }
    {
        let mut r = [0; UNIT_SIZE_LIMIT];
        let numbers = blocks::skip_numbers(self.plane.w);
        let by = self.y / SIDE;
        let bx = self.x / SIDE;
        let bw = self.w / SIDE;
        for j in 0..self.h / SIDE {
            let at = (by + j) * numbers + bx / MASK_BITS;
            r[SIDE * j] = gather(self.plane.skip, at, bx % MASK_BITS, bw);
        }
        r
    }
}
