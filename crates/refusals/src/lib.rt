// When a unit is declined: the table's conditions in their order, for all 64-bit numbers and all lengths. Nothing wraps: a product is only
// taken once the sizes and strides are within their limits.
#![tactic(auto)]

ghost use Rattle.std.specs.Prelude.{◌≡◌, cond, not, ◌&&◌, ◌||◌, ◌+◌, ◌-◌, ◌*◌, ◌/◌, ◌%◌, ◌≤◌, ◌<◌, max, ltb};
ghost use Rattle.std.specs.List.{fold};
ghost use Rattle.definition.specs.Answers.{number, status_from};
ghost use Rattle.definition.specs.Numbers.{bit_set};
ghost use Rattle.definition.specs.Units.{border, set_size};
ghost use Rattle.definition.specs.Limits.{width_limit, height_limit, stride_limit, plane_side_limit, unit_size_limit};
ghost use Rattle.definition.specs.Refusals.{unit_status, lowest, every, bad_shape, bad_kept, index_limit, next_limit, sized, outside, right_of, bottom_rows, bad_stride, bad_pair, bad_plane, bad_left, bad_top, bad_bottom, bad_masks, bad_filters, luma_rows, luma_above, luma_down, luma_top_rows, luma_outside, any_luma_outside, bad_luma, bad_map, plane_status};
ghost use Rattle.refusals.specs.Table.{first_checks, later_checks, LumaWithin, Within};

use bounds::{is_bad_sampling, is_set, is_sized, room};
use definition::{
    BLOCK_COLUMN_LIMIT, Given, HEIGHT_LIMIT, INDEX_COUNT, MAP_SIZE, Operation, PLANE_SIDE_LIMIT,
    Refusal, SCRATCH_ROWS, SIDE, STRIDE_LIMIT, Sizes, UNIT_SIZE_LIMIT, WIDTH_LIMIT,
};
use operations::{border_of, is_chroma, is_classed, luma_step, set_size, top_rows};

// A line of the table: its condition, and the reason that it gives.
fn refuse_if(bad: bool, refusal: Refusal) -> Result<(), Refusal>
    ensures { status_from result ≡ cond bad (number refusal) 0 }
{
    if bad { Err(refusal) } else { Ok(()) }
}

// e where bit k is set, else 0.
fn beside(m: usize, k: usize, e: usize) -> usize
    ensures { (result ≡ cond (bit_set m k) e 0) × (result ≤ e) }
{
    if is_set(m, k) { e } else { 0 }
}

// Whether rows of lent bytes lie outside: the last ends past the list, or bytes before the first are missing. Its seven numbers are the definition's, and come together in two places only.
fn is_outside(
    len: usize,
    off: usize,
    stride: usize,
    rows: usize,
    w: usize,
    before: usize,
    behind: usize,
) -> bool
    requires { (stride ≤ stride_limit) × (rows ≤ 2 * (height_limit + 4)) × (w ≤ 2 * width_limit) × (behind ≤ 4) }
    ensures { result ≡ outside len off stride rows w before behind }
{
    if rows == 0 {
        return false;
    }
    if off < before {
        return true;
    }
    !room(off, (rows - 1) * stride, w + behind, len)
}

// 3
fn bad_stride(op: Operation, g: Given) -> bool
    ensures { result ≡ bad_stride op g }
{
    let right = beside(g.edges, 1, border_of(op));
    !room(g.w, right, 0, g.stride)
        || STRIDE_LIMIT < g.stride
        || (is_chroma(op) && STRIDE_LIMIT < g.luma_stride)
}

// 4
fn bad_pair(op: Operation, g: Given) -> bool
    ensures { result ≡ bad_pair op g }
{
    is_chroma(op) && is_bad_sampling(g.ss_hor, g.ss_ver, g.kind)
}

// Saved rows that are padded from below.
fn bottom_rows(edges: usize) -> usize
    ensures { (result ≡ bottom_rows edges) × (result ≤ 2) }
{
    if is_set(edges, 5) {
        0
    } else {
        beside(edges, 3, 2)
    }
}

// The table's first four lines, which bound the sizes and strides.
fn early(op: Operation, g: Given) -> Result<(), Refusal>
    ensures { status_from result ≡ lowest (first_checks op g) }
{
    refuse_if(!is_sized(g.w, WIDTH_LIMIT), Refusal::Width)?;
    refuse_if(!is_sized(g.h, HEIGHT_LIMIT), Refusal::Height)?;
    refuse_if(bad_stride(op, g), Refusal::Stride)?;
    refuse_if(bad_pair(op, g), Refusal::Sampling)
}

// A unit that those lines let pass.
#[derive(Clone, Copy)]
struct Bounded<'a> {
    op: Operation,
    g: &'a Given,
    z: &'a Sizes,
    ghost within: { Within op g.now },
}

impl Bounded<'_> {
    // The other lines.
    fn later(&self) -> Result<(), Refusal>
        ensures { status_from result ≡ lowest (later_checks self.now.op self.now.g.now self.now.z.now) }
    {
        refuse_if(self.bad_plane(), Refusal::Outside)?;
        refuse_if(self.bad_left(), Refusal::Left)?;
        refuse_if(self.bad_top(), Refusal::Top)?;
        refuse_if(self.bad_bottom(), Refusal::Bottom)?;
        refuse_if(self.bad_masks(), Refusal::Masks)?;
        refuse_if(self.bad_filters(), Refusal::Filters)?;
        refuse_if(self.bad_luma(), Refusal::Luma)
    }

    // Rows of the unit's own plane, with `before` samples before them.
    fn own_outside(&self, len: usize, off: usize, rows: usize, before: usize) -> bool
        requires { rows ≤ 2 * (height_limit + 4) }
        ensures { result ≡ outside len off self.now.g.now.stride rows self.now.g.now.w before (right_of self.now.g.now (border self.now.op)) }
    {
        let behind = beside(self.g.edges, 1, border_of(self.op));
        is_outside(len, off, self.g.stride, rows, self.g.w, before, behind)
    }

    // 5
    fn bad_plane(&self) -> bool
        ensures { result ≡ bad_plane self.now.op self.now.g.now self.now.z.now }
    {
        let rows = self.g.h + beside(self.g.edges, 5, border_of(self.op));
        self.own_outside(self.z.plane, self.g.off, rows, 0)
    }

    // 6
    fn bad_left(&self) -> bool
        ensures { result ≡ bad_left self.now.g.now self.now.z.now }
    {
        is_set(self.g.edges, 0) && self.z.left < 6 * self.g.h
    }

    // 7
    fn bad_top(&self) -> bool
        ensures { result ≡ bad_top self.now.op self.now.g.now self.now.z.now }
    {
        let rows = top_rows(self.op, self.g.edges);
        let before = beside(self.g.edges, 0, border_of(self.op));
        self.own_outside(self.z.top, self.g.top_off, rows, before)
    }

    // 8
    fn bad_bottom(&self) -> bool
        ensures { result ≡ bad_bottom self.now.op self.now.g.now self.now.z.now }
    {
        let rows = bottom_rows(self.g.edges);
        let before = beside(self.g.edges, 0, border_of(self.op));
        self.own_outside(self.z.bottom, self.g.bottom_off, rows, before)
    }

    // 9
    fn bad_masks(&self) -> bool
        ensures { result ≡ bad_masks self.now.op self.now.g.now self.now.z.now }
    {
        self.z.skip < self.g.h || (is_classed(self.op) && self.z.noskip < self.g.h / SIDE)
    }

    // 10
    fn bad_filters(&self) -> bool
        ensures { result ≡ bad_filters self.now.op self.now.g.now self.now.z.now }
    {
        let size = set_size(self.op);
        if is_classed(self.op) {
            self.z.filters % size != 0 || self.z.bad_map
        } else {
            self.z.filters != size
        }
    }

    // 11. It is inlined, so that the numbers of a unit of any operation stay where they are.
    #[inline(always)]
    fn bad_luma(&self) -> bool
        ensures { result ≡ bad_luma self.now.op self.now.g.now self.now.z.now }
    {
        if !is_chroma(self.op) {
            return false;
        }
        let luma = BoundedLuma {
            g: self.g,
            z: self.z,
        };
        luma.any_outside()
    }
}

// The luma rows of a chroma unit that those lines let pass.
#[derive(Clone, Copy)]
struct BoundedLuma<'a> {
    g: &'a Given,
    z: &'a Sizes,
    ghost within: { LumaWithin g.now },
}

impl BoundedLuma<'_> {
    // Under kind 2 the lower of two rows is not padded from.
    fn read(&self, rows: usize) -> usize
        requires { 0 < rows }
        ensures { (result ≡ luma_rows self.now.g.now rows) × (result ≤ rows) }
    {
        if self.g.ss_ver == 1 && self.g.kind == 2 {
            rows - 1
        } else {
            rows
        }
    }

    fn above(&self) -> usize
        ensures { (result ≡ luma_above self.now.g.now) × (result ≤ 4) }
    {
        beside(self.g.edges, 4, 2 * luma_step(self.g.ss_ver))
    }

    fn down(&self) -> usize
        ensures { (result ≡ luma_down self.now.g.now) × (result ≤ 2 * (height_limit + 2)) }
    {
        let rows = self.g.h + beside(self.g.edges, 5, 2);
        self.read(luma_step(self.g.ss_ver) * rows)
    }

    fn top(&self) -> usize
        ensures { (result ≡ luma_top_rows self.now.g.now) × (result ≤ 2) }
    {
        if is_set(self.g.edges, 4) {
            return 0;
        }
        beside(self.g.edges, 2, self.read(2))
    }

    fn outside(&self, len: usize, off: usize, rows: usize, above: usize) -> bool
        requires { (rows ≤ 2 * (height_limit + 2)) × (above ≤ 4) }
        ensures { result ≡ luma_outside self.now.g.now len off rows above }
    {
        let w = self.g.w * luma_step(self.g.ss_hor);
        let before = above * self.g.luma_stride + beside(self.g.edges, 0, 4);
        let behind = beside(self.g.edges, 1, 4);
        is_outside(len, off, self.g.luma_stride, rows, w, before, behind)
    }

    fn any_outside(&self) -> bool
        ensures { result ≡ any_luma_outside self.now.g.now self.now.z.now }
    {
        let bottom = bottom_rows(self.g.edges);
        self.outside(
            self.z.luma_plane,
            self.g.luma_off,
            self.down(),
            self.above(),
        ) || self.outside(self.z.luma_top, self.g.luma_top_off, self.top(), 0)
            || self.outside(self.z.luma_bottom, self.g.luma_bottom_off, bottom, 0)
    }
}

// Why a unit of operation op is declined, if it is.
pub fn unit_status(op: Operation, g: Given, z: Sizes) -> Result<(), Refusal>
    ensures { status_from result ≡ unit_status op g z }
{
    early(op, g)?;
    let unit = Bounded { op, g: &g, z: &z };
    unit.later()
}

// The largest of a list, 0 where it is empty. It looks at all of them, so that the compiler can take sixteen at a time.
fn most(xs: &[u8]) -> u8
    ensures { result ≡ fold max 0 xs.now }
{
    xs.iter().fold(0, |m, x| m.max(*x))
}

#[tactic(auto, using(crate::proofs::Every::below_largest))]
fn all_below(xs: &[u8], n: usize) -> bool
    ensures { result ≡ every (λ x. ltb x n) xs.now }
{
    xs.is_empty() || usize::from(most(xs)) < n
}

// Whether a class map is wrong: all its entries and all subclasses are tested, reached or not.
pub fn bad_map(op: Operation, map: &[u8], subclass: &[u8], filters: usize) -> bool
    ensures { result ≡ bad_map op map.now subclass.now filters }
{
    let sets = filters / set_size(op);
    map.len() != MAP_SIZE || !all_below(map, subclass.len()) || !all_below(subclass, sets)
}

fn index_limit(op: Operation) -> usize
    ensures { result ≡ index_limit op }
{
    if is_chroma(op) { 4 } else { 9 }
}

fn next_limit(op: Operation) -> usize
    ensures { result ≡ next_limit op }
{
    if is_chroma(op) { 4 } else { 8 }
}

// 13: the state's shape. It is of another operation, its rows done are over h, a row index is over its limit, or the next row over its own.
pub fn bad_shape(
    op: Operation,
    other: bool,
    done: usize,
    h: usize,
    indices: &[usize; INDEX_COUNT],
    next: usize,
) -> bool
    ensures { result ≡ bad_shape op other done h indices.now next }
{
    other || h < done || !bounds::indices_up_to(indices, index_limit(op)) || next_limit(op) < next
}

// .. and, classed, a kept class past the filters.
#[tactic(auto, using(crate::proofs::Every::every_first))]
pub fn bad_kept(op: Operation, classes: &[u8; BLOCK_COLUMN_LIMIT], filters: usize) -> bool
    ensures { result ≡ bad_kept op classes.now filters }
{
    is_classed(op) && !all_below(classes, filters / set_size(op))
}

fn bad_sides(w: usize, h: usize, unit: usize) -> bool
    ensures { result ≡ (not (sized plane_side_limit w) || not (sized plane_side_limit h) || not (sized unit_size_limit unit)) }
{
    !is_sized(w, PLANE_SIDE_LIMIT)
        || !is_sized(h, PLANE_SIDE_LIMIT)
        || !is_sized(unit, UNIT_SIZE_LIMIT)
}

// A whole luma plane, by its sides, the side of its units and the lengths of what is lent. Its seven numbers are those of the definition.
#[tactic(auto, unfolding(definition::specs::Refusals::plane_status))]
pub fn plane_status(
    w: usize,
    h: usize,
    unit: usize,
    plane: usize,
    skip: usize,
    filter: usize,
    scratch: usize,
) -> Result<(), Refusal>
    ensures { status_from result ≡ plane_status w h unit plane skip filter scratch }
{
    refuse_if(bad_sides(w, h, unit), Refusal::Plane)?;
    refuse_if(plane < h * w, Refusal::Outside)?;
    refuse_if(skip < h / SIDE * blocks::skip_numbers(w), Refusal::Masks)?;
    refuse_if(filter != set_size(Operation::Luma), Refusal::Filters)?;
    refuse_if(scratch < SCRATCH_ROWS * w, Refusal::Scratch)
}
