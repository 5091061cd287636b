// The generator that both programs make their units from: numbers and lists that depend on the unit's number alone.
// Casts: usize and u64 have no From to each other, and a number that is narrowed is below the end of its type.
ghost use Rattle.std.specs.Prelude.{◌<◌, ◌≤◌, ◌+◌, ◌^◌, ◌≤ℤ◌, ◌<ℤ◌, pos, neg_ℤ};

use definition::MAP_SIZE;
use std::array::from_fn;

fn spread(x: u64) -> u64 {
    let a = x ^ (x << 13);
    let b = a ^ (a >> 7);
    b ^ (b << 17)
}

fn mix(x: u64) -> u64 {
    let a = spread(x.wrapping_add(0x9e3779b97f4a7c15));
    let b = spread(a.wrapping_add(0xbf58476d1ce4e5b9));
    b ^ (b >> 31)
}

// Number i of the list s of unit k.
fn draw(k: usize, s: u64, i: usize) -> u64 {
    let list = mix(mix(k as u64).wrapping_add(s));
    mix(list.wrapping_add(i as u64))
}

// A number of unit k.
pub fn below(k: usize, s: u64, most: u64) -> usize
    requires { 0 < most }
    ensures { result < most }
{
    (draw(k, s, 0) % most) as usize
}

// Byte i of the pool: any, an end, or close to the others, 4,096 of a kind.
pub fn sample(i: usize) -> u8 {
    let v = (mix(i as u64) % 256) as u8;
    match i / 4096 % 4 {
        0 => v,
        1 => if v % 2 == 0 { 0 } else { 255 },
        2 => 112 + v % 16,
        _ => 100 + v % 6,
    }
}

// Entry i of the map that the Rust is run with. `traps` has the same formula: a crate for one line would be no plainer.
pub fn map_entry(i: usize) -> u8
    requires { i < MAP_SIZE }
{
    ((i * 37 + i / 64) % 64) as u8
}

// Shapes are numbers because they are drawn: an enum would only name each once more.
fn mask(shape: u64, v: u64) -> u16 {
    match shape {
        0 | 1 => 0,
        2 => (v % 65536) as u16,
        3 => ((v & (v >> 16)) % 65536) as u16,
        4 => ((v | (v >> 16)) % 65536) as u16,
        _ => 65535,
    }
}

// The masks of the list s of unit k.
fn masks<const N: usize>(k: usize, s: u64) -> [u16; N] {
    let shape = draw(k, s, 99) % 6;
    from_fn(|i| mask(shape, draw(k, s, i)))
}

// Numbers below half as they are, and those from half on as the negative ones, from -1 down.
fn signed(x: u64, half: u64) -> i64
    requires half { half ≤ 2 ^ 31 }
    requires x { x < half + half }
    ensures low { neg_ℤ (pos half) ≤ℤ result }
    ensures high { result <ℤ pos half }
{
    if x < half {
        x as i64
    } else {
        !((x - half) as i64)
    }
}

// A number of a type of which half lies below 0: an end, either end, any number, or else the small one. Its shape is drawn, as a mask's is, here and in the next two.
fn number(shape: u64, v: u64, half: u64, small: u64) -> i64
    requires half { (0 < half) × (half ≤ 2 ^ 31) }
    requires small { small < half + half }
    ensures low { neg_ℤ (pos half) ≤ℤ result }
    ensures high { result <ℤ pos half }
{
    let least = half + half - 1;
    let greatest = half - 1;
    let x = match shape {
        0 => least,
        1 => greatest,
        2 => if v % 2 == 0 { least } else { greatest },
        3 => v % (half + half),
        _ => small,
    };
    signed(x, half)
}

fn narrow(shape: u64, v: u64) -> i8 {
    number(shape, v, 128, v % 16 + v / 16 % 2 * 128) as i8
}

fn wide(shape: u64, v: u64) -> i16 {
    number(shape, v, 32768, v % 24 + v / 32 % 2 * 32768) as i16
}

fn quantizer(k: usize) -> i32 {
    let v = draw(k, 6, 0);
    match draw(k, 6, 1) % 8 {
        0 => i32::MIN,
        1 => i32::MAX,
        2 => signed(v % 4294967296, 2147483648) as i32,
        3 => !((v % 40000) as i32),
        _ => (v % 6000) as i32,
    }
}

// What a unit is lent besides samples and the map. Filters come in sets, narrow ones of 18 and wide ones of 13, and each set has a shape of its own.
#[derive(Drop)]
pub struct Numbers {
    pub narrow: [i8; 72],
    pub wide: [i16; 52],
    pub subclass: [u8; 64],
    pub noskip: [u16; 16],
    pub base_q: i32,
    pub skip: [u16; 64],
}

impl Numbers {
    pub fn new(k: usize) -> Numbers {
        Numbers {
            narrow: from_fn(|i| narrow(draw(k, 5, i / 18) % 8, draw(k, 4, i))),
            wide: from_fn(|i| wide(draw(k, 5, i / 13) % 8, draw(k, 4, i))),
            subclass: from_fn(|i| (draw(k, 1, i) % 4) as u8),
            noskip: masks(k, 3),
            base_q: quantizer(k),
            skip: masks(k, 2),
        }
    }
}

// FNV-1a.
pub fn digest(a: &[u8]) -> u64 {
    a.iter().fold(0xcbf29ce484222325, |h: u64, b| {
        (h ^ u64::from(*b)).wrapping_mul(0x100000001b3)
    })
}
