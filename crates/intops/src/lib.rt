// intops.rs: the helpers that the core uses. Each takes every value.
#![tactic(auto)]

ghost use Rattle.std.specs.Prelude.{◌≡◌, ◌+ℤ◌};
ghost use Rattle.definition.specs.Numbers.{max_z, min_z, clip_z, to_i32};

pub fn imax(a: i32, b: i32) -> i32
    ensures { result ≡ max_z a b }
{
    a.max(b)
}

pub fn imin(a: i32, b: i32) -> i32
    ensures { result ≡ min_z a b }
{
    a.min(b)
}

// This and the next are each a function of the Rust.
pub fn iclip(v: i32, least: i32, most: i32) -> i32
    ensures { result ≡ clip_z least most v }
{
    iclip64to32(i64::from(v), least, most)
}

// The Rust's clamp panics where least is over most; here the test against least comes first. The last arm is narrowed by `as`: v lies between two i32.
pub fn iclip64to32(v: i64, least: i32, most: i32) -> i32
    ensures { result ≡ clip_z least most v }
{
    if v < i64::from(least) {
        least
    } else if i64::from(most) < v {
        most
    } else {
        v as i32
    }
}

// The sum, clipped to an i32. With the library's method a class index takes a tenth longer.
pub fn saturating_add(a: i32, b: i32) -> i32
    ensures { result ≡ to_i32 (a +ℤ b) }
{
    iclip64to32(i64::from(a) + i64::from(b), i32::MIN, i32::MAX)
}
