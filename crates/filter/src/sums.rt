// The sum of a filter's taps, each of samples less a base, times a number of the filter. The taps are written out and their pieces always inlined: so the
// compiler folds the constant tables away. With a loop over them, or where it may choose what to inline, a run takes six to eighteen times as long.
ghost use Rattle.std.specs.Prelude.{◌≡◌, ℕ, ◌+◌, ◌*◌, ◌^◌, ◌<◌, ◌≤◌, ℤ, pos, nat_abs, ◌+ℤ◌, ◌-ℤ◌, ◌*ℤ◌};
ghost use Rattle.filter.specs.Windows.{pair_limit};
ghost use Rattle.filter.specs.Groups.{small_limit, narrow_limit};
ghost use Rattle.filter.specs.Taps.{first_limit, tap_limit, tap_of, Taken};

use crate::narrow::{difference, narrow_tap, with_group};

// The taps of a filter around one sample, and what their sum starts from.
pub trait Taps {
    ghost count: { Self → ℕ };

    ghost first: { Self → ℤ };

    ghost samples: { Self → ℕ → ℕ };

    ghost base: { Self → ℕ };

    ghost numbers: { Self → ℕ → ℤ };

    fn start(&self) -> i32
        ensures value { result ≡ first self.now }
        ensures bound { nat_abs result ≤ first_limit };

    // The samples of tap k.
    fn sample(&self, k: usize) -> u32
        requires { k < count self.now }
        ensures value { result ≡ samples self.now k }
        ensures bound { result ≤ pair_limit };

    // What they are less.
    fn base(&self) -> u32
        ensures value { result ≡ base self.now }
        ensures bound { result ≤ pair_limit };

    // The number of tap k.
    fn number(&self, k: usize) -> i16
        requires { k < count self.now }
        ensures { result ≡ numbers self.now k };
}

// s + (p - b) c; `as` changes the sign of what is at most 510.
fn wide_tap(s: i32, p: u32, b: u32, c: i16) -> i32
    requires { (nat_abs s < 2 ^ 30) × (p ≤ pair_limit) × (b ≤ pair_limit) }
    ensures { (result ≡ s +ℤ (pos p -ℤ pos b) *ℤ c) × (nat_abs result ≤ nat_abs s + tap_limit) }
{
    s + (p as i32 - b as i32) * i32::from(c)
}

// Taps, and the width that they are summed in: 32 bits, or 16 in groups, where their numbers are small. The width is a number, since a const parameter
// that is a bool may not stand beside a ghost field. A flag in the taps was tried: runs by small luma and chroma filters took up to 62 % more.
#[derive(Drop)]
pub struct Summed<'a, const BITS: usize, T: Taps> {
    pub taps: &'a T,
    ghost small: { (k : ℕ) → BITS ≡ 16 → k < T.count taps.now → nat_abs (T.numbers taps.now k) ≤ small_limit },
}

// The fact of a sum so far (`Taken`) stands in each clause: a type that held the sum would need clauses that its taps are the same and how many it has taken, and
// say no less.
impl<'a, const BITS: usize, T: Taps> Summed<'a, BITS, T> {
    // One tap more of a group, whose sum so far is of two taps at most.
    #[inline(always)]
    fn narrow_step(&self, k: usize, t: i16) -> i16
        requires bounds { (BITS ≡ 16) × (k < T.count self.now.taps.now) × (nat_abs t ≤ 2 * narrow_limit) }
        ensures value { result ≡ t +ℤ tap_of (T.samples self.now.taps.now) (T.base self.now.taps.now) (T.numbers self.now.taps.now) k }
        ensures bound { nat_abs result ≤ nat_abs t + narrow_limit }
    {
        let taps = self.taps;
        let d = difference(taps.sample(k), taps.base());
        narrow_tap(t, d, taps.number(k))
    }

    // One tap more, by itself.
    #[inline(always)]
    fn step(&self, k: usize, s: i32) -> i32
        requires bounds { (k < T.count self.now.taps.now) × (k < 16) }
        requires taken { Taken (T.first self.now.taps.now) (T.samples self.now.taps.now) (T.base self.now.taps.now) (T.numbers self.now.taps.now) k s }
        ensures { Taken (T.first self.now.taps.now) (T.samples self.now.taps.now) (T.base self.now.taps.now) (T.numbers self.now.taps.now) (k + 1) result }
    {
        let taps = self.taps;
        if BITS == 16 {
            return with_group(s, self.narrow_step(k, 0));
        }
        wide_tap(s, taps.sample(k), taps.base(), taps.number(k))
    }

    // Three taps more, one by one or as a group.
    #[inline(always)]
    fn three(&self, k: usize, s: i32) -> i32
        requires bounds { (k + 3 ≤ T.count self.now.taps.now) × (k + 3 ≤ 16) }
        requires taken { Taken (T.first self.now.taps.now) (T.samples self.now.taps.now) (T.base self.now.taps.now) (T.numbers self.now.taps.now) k s }
        ensures { Taken (T.first self.now.taps.now) (T.samples self.now.taps.now) (T.base self.now.taps.now) (T.numbers self.now.taps.now) (k + 3) result }
    {
        if BITS == 16 {
            let t1 = self.narrow_step(k, 0);
            let t2 = self.narrow_step(k + 1, t1);
            let t3 = self.narrow_step(k + 2, t2);
            return with_group(s, t3);
        }
        let s1 = self.step(k, s);
        let s2 = self.step(k + 1, s1);
        self.step(k + 2, s2)
    }

    // The sum of the first six taps.
    #[inline(always)]
    pub fn six(&self) -> i32
        requires count { 6 ≤ T.count self.now.taps.now }
        ensures { Taken (T.first self.now.taps.now) (T.samples self.now.taps.now) (T.base self.now.taps.now) (T.numbers self.now.taps.now) 6 result }
    {
        let s3 = self.three(0, self.taps.start());
        self.three(3, s3)
    }

    #[inline(always)]
    pub fn twelve(&self) -> i32
        requires count { 12 ≤ T.count self.now.taps.now }
        ensures { Taken (T.first self.now.taps.now) (T.samples self.now.taps.now) (T.base self.now.taps.now) (T.numbers self.now.taps.now) 12 result }
    {
        let s6 = self.six();
        let s9 = self.three(6, s6);
        self.three(9, s9)
    }

    #[inline(always)]
    pub fn sixteen(&self) -> i32
        requires count { 16 ≤ T.count self.now.taps.now }
        ensures { Taken (T.first self.now.taps.now) (T.samples self.now.taps.now) (T.base self.now.taps.now) (T.numbers self.now.taps.now) 16 result }
    {
        let s12 = self.twelve();
        let s15 = self.three(12, s12);
        self.step(15, s15)
    }
}
