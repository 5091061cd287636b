// Works out the skip sum of each pattern of nine noskip bits by the rule, and prints them, a decimal a line.
// What it has to print, in the file stdout, comes from a second reading of the rule: `compare skip_sums` writes it.
#![tactic(auto)]

ghost use Rattle.std.specs.Prelude.{◌≡◌, ◌+◌, ◌*◌, ◌≤◌, cond, Some};
ghost use Rattle.definition.specs.Numbers.{bit_set};
ghost use Rattle.definition.specs.SkipSums.{pattern_sum, skip_sums, decimal_lines};
ghost use Rattle.tables.specs.declared.TheConstants.{SKIP_SUMS};

use bounds::is_set;
use definition::PATTERN_COUNT;
use std::{fmt, io};

// What a neighbour adds: its share where bit k of the pattern, its own, is 0.
fn added(pattern: usize, k: usize, share: u8) -> u8
    ensures { (result ≡ cond (bit_set pattern k) 0 share) × (result ≤ share) }
{
    if is_set(pattern, k) { 0 } else { share }
}

// What three neighbours of one row add, those at the sides and the one between them, where the row's first bit is k.
fn added_by_row(pattern: usize, k: usize, side: u8, middle: u8) -> u8
    requires { (k ≤ 6) × (side ≤ 16) × (middle ≤ 16) }
    ensures { (result ≡ cond (bit_set pattern k) 0 side + cond (bit_set pattern (k + 1)) 0 middle + cond (bit_set pattern (k + 2)) 0 side) × (result ≤ 2 * side + middle) }
{
    added(pattern, k, side) + added(pattern, k + 1, middle) + added(pattern, k + 2, side)
}

// The sum of a pattern, by the rule: 16 for the block itself, 4 for a side, 1 for a corner, where the bit is 0.
#[tactic(auto, unfolding(definition::specs::SkipSums::pattern_sum, definition::specs::Numbers::sum_n))]
fn pattern_sum(pattern: usize) -> u8
    ensures { result ≡ pattern_sum pattern }
{
    added_by_row(pattern, 0, 1, 4)
        + added_by_row(pattern, 3, 4, 16)
        + added_by_row(pattern, 6, 1, 4)
}

// The sums of all patterns: those that the library's table holds.
fn skip_sums() -> [u8; PATTERN_COUNT]
    ensures by_rule { result ≡ skip_sums }
    ensures held { result ≡ SKIP_SUMS }
{
    std::array::from_fn(|pattern| pattern_sum(pattern))
}

// Sums as they are printed.
#[derive(Drop)]
struct Lines([u8; PATTERN_COUNT]);

impl fmt::Display for Lines {
    ghost output = { λ l. Some (decimal_lines l.0) };

    fn fmt<W: fmt::Write>(&self, f: &mut fmt::Formatter<W>) -> fmt::Result {
        for sum in self.0 {
            writeln!(f, "{sum}")?;
        }
        Ok(())
    }
}

fn main(rt: HostRuntime) -> io::Result<()> {
    rt.print(Lines(skip_sums()))
}
