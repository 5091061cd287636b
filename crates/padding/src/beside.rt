// What the paddings share: on which sides of a row samples are lent, and bytes that are put at a place. That they lie in the destination is asked by each function that puts some:
// were it lent its part alone, each caller would cut that instead.
ghost use Rattle.std.specs.Prelude.{◌≡◌, ◌+◌, ◌≤◌, length};
ghost use Rattle.std.proofs.lemmas.List.Edits.{sets};
ghost use Rattle.definition.specs.Rows.{tab};
ghost use Rattle.definition.specs.Padding.{has_left, has_right};
ghost use Rattle.definition.specs.Refusals.{beside};

use bounds::is_set;

// The sides of a row on which samples are lent.
#[derive(Clone, Copy)]
pub struct Sides {
    pub left: bool,
    pub right: bool,
}

impl Sides {
    pub fn of(edges: usize) -> Sides
        ensures { (result.left ≡ has_left edges) × (result.right ≡ has_right edges) }
    {
        Sides {
            left: is_set(edges, 0),
            right: is_set(edges, 1),
        }
    }

    // Of e samples before a row, those that are lent.
    pub fn before(self, e: usize) -> usize
        ensures { result ≡ beside self.left e }
    {
        if self.left { e } else { 0 }
    }

    pub fn behind(self, e: usize) -> usize
        ensures { result ≡ beside self.right e }
    {
        if self.right { e } else { 0 }
    }
}

// The bytes of src to dst at `at`. The library's `copy_from_slice` became a call of C's memmove here: a row's padding took up to twice the time, and the archive asked for a name more.
pub fn copy_into(dst: &mut [u8], at: usize, src: &[u8])
    requires { at + length src.now ≤ length dst.old }
    ensures { dst.new ≡ sets dst.old at src.now }
{
    for j in 0..src.len() {
        dst[at + j] = src[j];
    }
}

// n times v to dst at `at`. The library's `fill`, which stores the last byte by itself, takes a fifth of a row's time more.
pub fn fill_into(dst: &mut [u8], at: usize, v: u8, n: usize)
    requires { at + n ≤ length dst.old }
    ensures { dst.new ≡ sets dst.old at (tab n (λ _. v)) }
{
    for j in 0..n {
        dst[at + j] = v;
    }
}
