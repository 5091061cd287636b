// Taps in 16 bits. A filter is small where no number of a tap is more than SMALL from 0: three taps of it fit, and are summed as a group by themselves.
// Both ways give the same sum. A group's numbers are read from a copy of the filter, which the compiler spreads once for a run.
ghost use Rattle.std.specs.Prelude.{true, false, ◌≡◌, ◌+◌, ◌*◌, ◌^◌, ◌<◌, ◌≤◌, pos, nat_abs, ◌+ℤ◌, ◌-ℤ◌, ◌*ℤ◌, length};
ghost use Rattle.filter.specs.Windows.{pair_limit};
ghost use Rattle.filter.specs.Groups.{small_limit, narrow_limit, Small};

// Three taps of numbers up to this are at most 3 * 510 * 21 = 32,130, and fit 16 bits.
const SMALL: i16 = 21;

// a - b in 16 bits: a pair less twice the centre, or a sample of luma less its centre. Both fit, so they are narrowed by `as`: `try_from` would be a test that cannot fail.
pub fn difference(a: u32, b: u32) -> i16
    requires { (a ≤ pair_limit) × (b ≤ pair_limit) }
    ensures { (result ≡ pos a -ℤ pos b) × (nat_abs result ≤ pair_limit) }
{
    a as i16 - b as i16
}

// s + d c in 16 bits: one tap more of a group, whose sum so far is of two taps at most.
pub fn narrow_tap(s: i16, d: i16, c: i16) -> i16
    requires { (nat_abs s ≤ 2 * narrow_limit) × (nat_abs d ≤ pair_limit) × (nat_abs c ≤ small_limit) }
    ensures { (result ≡ s +ℤ d *ℤ c) × (nat_abs result ≤ nat_abs s + narrow_limit) }
{
    s + d * c
}

// A sum and that of a group.
pub fn with_group(s: i32, t: i16) -> i32
    requires { nat_abs s < 2 ^ 30 }
    ensures { (result ≡ s +ℤ t) × (nat_abs result ≤ nat_abs s + nat_abs t) }
{
    s + i32::from(t)
}

// Whether a number is too large for a group.
pub fn is_large(c: i16) -> bool
    ensures { result ≡ false → nat_abs c ≤ small_limit }
{
    c < -SMALL || SMALL < c
}

// Whether no number of a filter is. `Small` is a fact that six functions ask: it is of filters of three types, and a type that knew it would have to be three. The test goes through all of them: so the compiler tests them side by side.
fn is_small(filter: &[i8]) -> bool
    ensures { result ≡ true → Small (length filter.now) filter.now }
{
    let mut small = true;
    for c in filter {
        if is_large(i16::from(*c)) {
            small = false;
        }
    }
    small
}

// Whether the taps of n samples are to be summed in groups: not for eight or fewer, where the test costs what it saves.
pub fn worth_groups(filter: &[i8], n: usize) -> bool
    ensures { result ≡ true → Small (length filter.now) filter.now }
{
    8 < n && is_small(filter)
}
