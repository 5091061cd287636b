// A run writes eight samples in a turn, or what of them belongs to it: the last eight end with the rows, so that none leaves them.
ghost use Rattle.std.specs.Prelude.{◌≡◌, ℕ, ◌+◌, ◌<◌, ◌≤◌, min, length, get_or};
ghost use Rattle.std.proofs.lemmas.List.Edits.{sets};
ghost use Rattle.definition.specs.Rows.{tab, row_bytes};
ghost use Rattle.filter.specs.Windows.{Turned, Gives};

// Eight samples, by what works out each of them. `std::array::from_fn` in its place was tried with one caller and is no plainer: it proves by a law (`made`
// in `units`) that is longer than this function and what proves it.
pub fn eight<F: Fn(usize) -> u8>(sample: F) -> [u8; 8]
    requires { (j : ℕ) → j < 8 → F.pre sample j }
    ensures { (j : ℕ) → j < 8 → F.post sample j (get_or result j 0) }
{
    let mut out = [0u8; 8];
    for j in 0..8 {
        out[j] = sample(j);
    }
    out
}

// m of eight samples, from `skip` on, to byte x of the destination on. All eight are one store; fewer by `copy_from_slice` would be a call in each turn, round
// which the compiler keeps nothing in registers.
fn put(dst: &mut [u8], x: usize, eight: [u8; 8], skip: usize, m: usize)
    requires { (x + m ≤ length dst.old) × (skip + m ≤ 8) }
    ensures { dst.new ≡ sets dst.old x (tab m (λ j. get_or eight (skip + j) 0)) }
{
    if m == 8 {
        dst[x..x + 8].copy_from_slice(&eight);
        return;
    }
    for j in 0..m {
        dst[x + j] = eight[skip + j];
    }
}

// One turn of a run: of the eight samples from byte `at` on it writes m, from the `skip`-th on.
#[derive(Clone, Copy)]
struct Turn {
    at: usize,
    skip: usize,
    m: usize,
}

// The turn that goes on with sample x of n: its eight begin with that sample, or at byte `last`, where the last eight of the rows do.
fn next_turn(col0: usize, x: usize, n: usize, last: usize) -> Turn
    requires { (x < n) × (col0 + n ≤ last + 8) × (last + 8 ≤ row_bytes) }
    ensures { Turned col0 x n last result.at result.skip result.m }
{
    let at = (col0 + x).min(last);
    let skip = col0 + x - at;
    let m = (8 - skip).min(n - x);
    Turn { at, skip, m }
}

// The n samples of a run from byte col0 on, eight at a time, by what works out the eight from a byte on.
pub fn run<F: Fn(usize) -> [u8; 8]>(
    dst: &mut [u8],
    col0: usize,
    n: usize,
    last: usize,
    eight_from: F,
)
    requires room { (n ≤ length dst.old) × (col0 + n ≤ last + 8) × (last + 8 ≤ row_bytes) }
    requires callable { (at : ℕ) → min col0 last ≤ at → at ≤ last → F.pre eight_from at }
    ensures { (f : ℕ → ℕ) → Gives (F.post eight_from) (min col0 last) last (λ at. f at) → dst.new ≡ sets dst.old 0 (tab n (λ x. f (col0 + x))) }
{
    let mut x = 0;
    // No range: how far a turn goes is known once it is chosen.
    while x < n {
        let t = next_turn(col0, x, n, last);
        put(dst, x, eight_from(t.at), t.skip, t.m);
        x += t.m;
    }
}
