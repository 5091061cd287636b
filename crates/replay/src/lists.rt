// Which unit number k is, and the lists that it is lent: parts of the pool, no byte longer than it needs.
ghost use Rattle.std.specs.Prelude.{◌≡◌, ◌≤◌, ◌*◌, length};

use crate::numbers::{Numbers, below};
use definition::{Given, Lists, MAP_SIZE, NO_LISTS, Operation};
use operations::border_of;
use std::fmt;

// A list is a part of the pool from one of so many places on. None is longer than the limit.
const PLACES: usize = 16384;

pub const LIST_LIMIT: usize = 20480;

pub const POOL_SIZE: usize = PLACES + LIST_LIMIT;

const OPERATIONS: [Operation; 4] = [
    Operation::Luma,
    Operation::User,
    Operation::Pretrained,
    Operation::Chroma,
];

// Of chroma units: ss_hor and ss_ver.
const PAIRS: [(usize, usize); 3] = [(0, 0), (1, 0), (1, 1)];

// The edge bits (docs/SCOPE.md, 'Edges and padding').
const LEFT: usize = 1;

const RIGHT: usize = 2;

const TOP: usize = 4;

const BOTTOM: usize = 8;

const TOP_INTEGRATED: usize = 16;

const BOTTOM_INTEGRATED: usize = 32;

#[derive(Clone, Copy)]
struct Edges(usize);

impl Edges {
    fn has(self, bit: usize) -> bool {
        self.0 & bit != 0
    }

    // n samples or rows, where the edge bit calls for them.
    fn beside(self, bit: usize, n: usize) -> usize
        ensures { result ≤ n }
    {
        if self.has(bit) { n } else { 0 }
    }
}

// One unit in eight may be large.
fn side(k: usize, s: u64) -> usize
    ensures { result ≤ 64 }
{
    let most = if below(k, 10, 8) == 0 { 16 } else { 4 };
    4 + 4 * below(k, s, most)
}

// The samples or rows of luma beside n of chroma.
fn luma_of(n: usize, ss: usize) -> usize
    requires { n ≤ 68 }
    ensures { result ≤ 2 * n }
{
    if ss == 1 { 2 * n } else { n }
}

// .. and a row of luma, with what is read at its right.
fn luma_row(w: usize, ss_hor: usize, edges: Edges) -> usize
    requires { w ≤ 64 }
    ensures { result ≤ 132 }
{
    luma_of(w, ss_hor) + edges.beside(RIGHT, 4)
}

// The bytes up to the end of so many rows.
fn extent(off: usize, rows: usize, stride: usize, row: usize) -> usize
    requires off { off ≤ 559 }
    requires rows { rows ≤ 136 }
    requires stride { stride ≤ 137 }
    requires row { row ≤ 132 }
    ensures { result ≤ LIST_LIMIT }
{
    if rows == 0 {
        return 0;
    }
    off + (rows - 1) * stride + row
}

// The ghost fields have the most that its numbers can be, by which no list is longer than the limit.
#[derive(Clone, Copy)]
pub struct Unit {
    pub k: usize,
    pub op: Operation,
    pub given: Given,
    ghost sides: { (given.w ≤ 64) × (given.h ≤ 64) },
    ghost strides: { (given.stride ≤ 72) × (given.luma_stride ≤ 137) },
    ghost offsets: { (given.off ≤ 11) × (given.top_off ≤ 11) × (given.bottom_off ≤ 11) },
    ghost luma_offsets: { (given.luma_off ≤ 559) × (given.luma_top_off ≤ 11) × (given.luma_bottom_off ≤ 11) },
}

impl fmt::Display for Unit {
    fn fmt<W: fmt::Write>(&self, f: &mut fmt::Formatter<W>) -> fmt::Result {
        let g = self.given;
        write!(
            f,
            "unit {} op={} w={} h={} edges={}",
            self.k,
            operations::number_of(self.op),
            g.w,
            g.h,
            g.edges
        )
    }
}

impl Unit {
    // The edge bits run through all 64 sets for each operation, with higher bits that are ignored.
    pub fn new(k: usize) -> Unit {
        let op = OPERATIONS[k % 4];
        let edges = Edges(k / 4 % 64 + 64 * below(k, 11, 4));
        let w = side(k, 12);
        let left = edges.beside(LEFT, border_of(op));
        let right = edges.beside(RIGHT, border_of(op));
        let given = Given {
            w,
            h: side(k, 13),
            edges: edges.0,
            stride: w + right + below(k, 14, 5),
            off: below(k, 15, 8),
            top_off: left + below(k, 16, 8),
            bottom_off: left + below(k, 17, 8),
            ..Given::default()
        };
        let unit = Unit { k, op, given };
        if op == Operation::Chroma {
            unit.with_luma()
        } else {
            unit
        }
    }

    // All three pairs and kinds, with every set of edge bits. The stride holds a row, or, once in six times, is a short one: luma is only read.
    fn with_luma(self) -> Unit {
        let k = self.k;
        let g = self.given;
        let edges = self.edges();
        let (ss_hor, ss_ver) = PAIRS[k / 4 % 3];
        let luma_stride = if below(k, 20, 6) == 0 {
            below(k, 21, 8)
        } else {
            luma_row(g.w, ss_hor, edges) + below(k, 21, 6)
        };
        let left = edges.beside(LEFT, 4);
        let above = edges.beside(TOP_INTEGRATED, luma_of(2, ss_ver)) * luma_stride;
        let given = Given {
            luma_stride,
            luma_off: above + left + below(k, 22, 8),
            luma_top_off: left + below(k, 23, 8),
            luma_bottom_off: left + below(k, 24, 8),
            ss_hor,
            ss_ver,
            kind: k / 256 % 3,
            ..g
        };
        Unit {
            k,
            op: self.op,
            given,
        }
    }

    fn edges(&self) -> Edges {
        Edges(self.given.edges)
    }

    fn rows(&self) -> usize
        ensures { result ≤ 68 }
    {
        self.given.h + self.edges().beside(BOTTOM_INTEGRATED, border_of(self.op))
    }

    fn bottom_rows(&self) -> usize
        ensures { result ≤ 2 }
    {
        let edges = self.edges();
        if edges.has(BOTTOM_INTEGRATED) {
            0
        } else {
            edges.beside(BOTTOM, 2)
        }
    }

    // Rows of luma that are not needed: kind 2 reads the upper of two rows alone, and so not the last one.
    fn spare_rows(&self) -> usize
        ensures { result ≤ 1 }
    {
        usize::from(self.given.ss_ver == 1 && self.given.kind == 2)
    }

    fn luma_rows(&self) -> usize
        ensures { result ≤ 136 }
    {
        luma_of(self.rows(), self.given.ss_ver).saturating_sub(self.spare_rows())
    }

    fn luma_top_rows(&self) -> usize
        ensures { result ≤ 2 }
    {
        let edges = self.edges();
        if edges.has(TOP_INTEGRATED) {
            0
        } else {
            edges.beside(TOP, 2 - self.spare_rows())
        }
    }

    fn extent(&self, off: usize, rows: usize) -> usize
        requires off { off ≤ 11 }
        requires rows { rows ≤ 68 }
        ensures { result ≤ LIST_LIMIT }
    {
        let row = self.given.w + self.edges().beside(RIGHT, border_of(self.op));
        extent(off, rows, self.given.stride, row)
    }

    fn luma_extent(&self, off: usize, rows: usize) -> usize
        requires off { off ≤ 559 }
        requires rows { rows ≤ 136 }
        ensures { result ≤ LIST_LIMIT }
    {
        let g = self.given;
        let row = luma_row(g.w, g.ss_hor, self.edges());
        extent(off, rows, g.luma_stride, row)
    }

    // n bytes, from a place that depends on the list. A usize has no From to u64.
    fn part<'a>(&self, pool: &'a [u8; POOL_SIZE], list: u64, n: usize) -> &'a [u8]
        requires { n ≤ LIST_LIMIT }
    {
        let place = below(self.k, list, PLACES as u64);
        &pool[place..place + n]
    }

    // The plane as it is before the unit is restored. That of a classed unit has samples close to one another: there its classes differ most.
    pub fn plane<'a>(&self, pool: &'a [u8; POOL_SIZE]) -> &'a [u8]
        ensures { length result.now ≤ LIST_LIMIT }
    {
        let place = match self.op {
            Operation::Luma | Operation::Chroma => below(self.k, 30, 16384),
            Operation::User | Operation::Pretrained => 8192 + below(self.k, 30, 8192),
        };
        let n = self.extent(self.given.off, self.rows());
        &pool[place..place + n]
    }

    // What its operation is lent.
    pub fn lists<'a>(
        &self,
        pool: &'a [u8; POOL_SIZE],
        map: &'a [u8; MAP_SIZE],
        numbers: &'a Numbers,
    ) -> Lists<'a> {
        let g = self.given;
        let left = self.edges().beside(LEFT, 6 * g.h);
        let top = self.extent(g.top_off, operations::top_rows(self.op, g.edges));
        let bottom = self.extent(g.bottom_off, self.bottom_rows());
        let lists = Lists {
            left: self.part(pool, 31, left),
            top: self.part(pool, 32, top),
            bottom: self.part(pool, 33, bottom),
            skip: &numbers.skip,
            ..NO_LISTS
        };
        let classed = Lists {
            map,
            subclass: &numbers.subclass,
            noskip: &numbers.noskip,
            base_q: numbers.base_q,
            ..lists
        };
        match self.op {
            Operation::Luma => Lists {
                filters: &numbers.narrow[..16],
                ..lists
            },
            Operation::User => Lists {
                filters: &numbers.narrow,
                ..classed
            },
            Operation::Pretrained => Lists {
                wide: &numbers.wide,
                ..classed
            },
            Operation::Chroma => {
                let luma = self.luma_extent(g.luma_off, self.luma_rows());
                let luma_top = self.luma_extent(g.luma_top_off, self.luma_top_rows());
                let luma_bottom = self.luma_extent(g.luma_bottom_off, self.bottom_rows());
                Lists {
                    filters: &numbers.narrow[..18],
                    luma: self.part(pool, 34, luma),
                    luma_top: self.part(pool, 35, luma_top),
                    luma_bottom: self.part(pool, 36, luma_bottom),
                    ..lists
                }
            }
        }
    }
}
