// The lists that the units are lent, by formulas that both programs use, and what is written of a unit. Numbers are cast where they are below the end of the type.
ghost use Rattle.std.specs.Prelude.{◌<◌, ◌≤◌};

use definition::{Given, HEIGHT_LIMIT, Lists, MAP_SIZE, Operation};
use std::array::from_fn;
use std::fmt::{self, Display};
use std::io;

pub const STRIDE: usize = 68;

// The edge bit of saved rows below.
pub const BOTTOM: usize = 8;

pub const LUMA_STRIDE: usize = 132;

const PLANE_SIZE: usize = HEIGHT_LIMIT * STRIDE;

// Widths and heights at their limits and past them.
pub const LIMITS: [(usize, usize); 9] = [
    (4, 4),
    (64, 4),
    (0, 4),
    (6, 4),
    (68, 4),
    (4, 64),
    (4, 0),
    (4, 68),
    (6, 68),
];

// The lists of samples, of which each has its number in the formula.
#[derive(Clone, Copy)]
pub enum Samples {
    Plane,
    Bottom,
    Luma,
    LumaBottom,
}

pub fn samples_of<const N: usize>(list: Samples) -> [u8; N]
    requires { N ≤ 65536 }
{
    from_fn(|i| ((i * 73 + i / 4 * 31 + list as usize * 57) % 256) as u8)
}

// Byte i of the plane of a classed unit, whose samples are close to one another.
fn close(i: usize) -> u8
    requires { i < PLANE_SIZE }
{
    (60 + (i * 73 + i / 4 * 31) % 60) as u8
}

pub fn map_entry(i: usize) -> u8
    requires { i < MAP_SIZE }
{
    ((i * 37 + i / 64) % 64) as u8
}

// Number i of the filters, from -6 to 9.
pub fn number(i: usize) -> i8
    requires { i < 65536 }
{
    ((i * 5 + i / 13) % 16) as i8 - 6
}

pub fn given(w: usize, h: usize) -> Given {
    Given {
        w,
        h,
        stride: STRIDE,
        ..Given::default()
    }
}

// A row's samples in hexadecimal.
#[derive(Clone, Copy)]
struct Row<'a>(&'a [u8]);

impl Display for Row<'_> {
    fn fmt<W: fmt::Write>(&self, f: &mut fmt::Formatter<W>) -> fmt::Result {
        for sample in self.0 {
            write!(f, "{sample:02x}")?;
        }
        Ok(())
    }
}

// The rows of the rectangle; of a refused unit four samples of four rows, which are as they were.
fn print_rows(rt: &impl Print, g: Given, plane: &[u8], refused: bool) -> io::Result<()> {
    let (w, h) = if refused { (4, 4) } else { (g.w, g.h) };
    for row in plane.chunks(g.stride.max(1)).take(h) {
        println!(rt; "row={}", Row(&row[..w.min(row.len())]))?;
    }
    Ok(())
}

// Restores a unit and writes what came of it.
pub fn restore(
    rt: &impl Print,
    title: impl Display + Drop,
    op: Operation,
    g: Given,
    plane: &mut [u8],
    lent: &Lists<'_>,
) -> io::Result<()> {
    let restored = whole::restore(op, g, plane, lent);
    println!(rt; "{title} w={} h={} edges={}", g.w, g.h, g.edges)?;
    match restored {
        Ok(pieces) => println!(rt; "status=0\nfiltered={pieces}")?,
        Err(refusal) => println!(rt; "status={}\nfiltered=0", u8::from(refusal))?,
    }
    print_rows(rt, g, plane, restored.is_err())
}

// The same on a plane that depends on the operation alone.
pub fn unit(
    rt: &impl Print,
    title: impl Display + Drop,
    op: Operation,
    g: Given,
    lent: &Lists<'_>,
) -> io::Result<()> {
    let mut plane: [u8; PLANE_SIZE] = match op {
        Operation::Luma | Operation::Chroma => samples_of(Samples::Plane),
        Operation::User | Operation::Pretrained => from_fn(close),
    };
    restore(rt, title, op, g, &mut plane, lent)
}
