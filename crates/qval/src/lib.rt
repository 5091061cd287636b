// looprestoration.rs: the quantizer's terms of a class index and the bin of a value, at depth 8.
#![tactic(auto)]

ghost use Rattle.std.specs.Prelude.{◌≡◌, ◌*◌, ◌<◌, ◌≤◌, pos, nat_abs, ◌+ℤ◌, ◌*ℤ◌, IfOk};
ghost use Rattle.definition.specs.Answers.{status_from};
ghost use Rattle.definition.specs.ClassIndex.{prod, by8192, weight, term, bin};
ghost use Rattle.definition.specs.Leaves.{term_status};
ghost use Rattle.qval.specs.Answers.{qval_of};

use definition::Refusal;
use intops::{iclip64to32, imax, imin, saturating_add};
use tables::{MODE_OFFSETS, MODE_WEIGHTS};

// What a program in C is answered: the status, and the value or 0.
#[repr(C)]
#[derive(Clone, Copy)]
pub struct Qval {
    pub status: u8,
    pub value: i32,
}

impl From<Result<i32, Refusal>> for Qval {
    ghost from_gives = { λ r q. q ≡ qval_of r };

    fn from(term: Result<i32, Refusal>) -> Qval {
        match term {
            Ok(value) => Qval { status: 0, value },
            Err(refusal) => Qval {
                status: u8::from(refusal),
                value: 0,
            },
        }
    }
}

// (t q + 128) >> 8
fn tskip_product(qstep: i32, tskip: u8) -> i64
    ensures { (result ≡ prod qstep tskip) × (nat_abs result ≤ 547608330368) }
{
    (i64::from(tskip) * i64::from(qstep) + 128) >> 8
}

// W0 32t + W1 q + W2 p
fn weighted_sum(i: usize, qstep: i32, tskip: u8, p: i64) -> i64
    requires { (i < 4) × (nat_abs p ≤ 547608330368) }
    ensures { (result ≡ weight i 0 *ℤ pos (32 * tskip) +ℤ weight i 1 *ℤ qstep +ℤ weight i 2 *ℤ p) × (nat_abs result ≤ 36028797018963968) }
{
    let w = MODE_WEIGHTS[i];
    let t = 32 * i64::from(tskip);
    i64::from(w[0]) * t + i64::from(w[1]) * i64::from(qstep) + i64::from(w[2]) * p
}

// v / 8192, halves away from zero.
fn by_8192(v: i64) -> i64
    requires { nat_abs v ≤ 36028797018963968 }
    ensures { (result ≡ by8192 v) × (nat_abs result ≤ 36028797018968064) }
{
    if v < 0 {
        -((4096 - v) >> 13)
    } else {
        (v + 4096) >> 13
    }
}

// Term i for a quantizer and the skip sum times 7.
pub fn get_qval_given_tskip(qstep: i32, tskip: u8, i: usize) -> Result<i32, Refusal>
    ensures status_value { status_from result ≡ term_status i }
    ensures term_value { IfOk result (λ z. z ≡ term qstep tskip i) }
{
    if 3 < i {
        return Err(Refusal::Outside);
    }
    let v = by_8192(weighted_sum(i, qstep, tskip, tskip_product(qstep, tskip)));
    let offset = i64::from(MODE_OFFSETS[i]);
    Ok(iclip64to32(255 * (offset + v), i32::MIN, i32::MAX))
}

// The bin of a value, 0 to 7: from i32 to u32 `as` changes the sign alone.
#[tactic(auto, unfolding(definition::specs::ClassIndex::bin))]
pub fn get_qval_lut_bin(qval: i32) -> u32
    ensures { result ≡ bin qval }
{
    let q = saturating_add(imax(0, qval), 8192) >> 14;
    (imin(q, 255) >> 5) as u32
}
