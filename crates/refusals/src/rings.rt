// The tests of rings, their vertex counts and their parts, as a book's writer is lent them.
ghost use Rattle.std.specs.Prelude.{◌≡◌, ◌≤◌, length};
ghost use Rattle.refusals.specs.Rings.{rings_most, total};
ghost use Rattle.refusals.specs.Refusals.{first};
ghost use Rattle.refusals.specs.Screens.{wrong_sum, wrong_parts};
ghost use Rattle.refusals.specs.Rows.{of_rings};
ghost use Rattle.refusals.specs.Answers.{tested};

use crate::screen::{numbers, unless};
use crate::{Refusal, lists};

// The sum of at most 8 vertex counts.
pub fn sum_of(counts: &[u32]) -> usize
    requires { length counts.now ≤ rings_most }
    ensures value { result ≡ total counts.now }
    ensures upper_bound { result ≤ 34359738360 }
{
    let mut sum: usize = 0;
    for &n in counts {
        sum += n as usize;
    }
    sum
}

// The sum of at most 8 counts, for a list of coordinates.
fn sum(xs: &[f64], counts: &[u32]) -> Result<(), Refusal>
    requires { length counts.now ≤ rings_most }
    ensures { tested result ≡ wrong_sum xs.now counts.now }
{
    unless(
        xs.len() == 2 * sum_of(counts),
        Refusal::Length(counts.len() as u64),
    )
}

// The sum of at most 8 counts, and then that there are as many parts.
#[tactic(auto, using(crate::proofs::Tests::refused), unfolding(crate::specs::Rows::of_rings))]
fn sums(xs: &[f64], counts: &[u32], parts: &[u32]) -> Result<(), Refusal>
    requires { length counts.now ≤ rings_most }
    ensures { tested result ≡ first (wrong_sum xs.now counts.now) (wrong_parts counts.now parts.now) }
{
    sum(xs, counts)?;
    unless(
        parts.len() == counts.len(),
        Refusal::Length(counts.len() as u64),
    )
}

// The rings that the coordinates and the vertex counts are, and their parts. Coordinates are read only where the lengths are right.
#[tactic(auto, using(crate::proofs::Tests::refused), unfolding(crate::specs::Rows::of_rings))]
pub fn lent(xs: &[f64], counts: &[u32], parts: &[u32]) -> Result<(), Refusal>
    ensures { tested result ≡ of_rings xs.now counts.now parts.now }
{
    lists::rings(counts)?;
    lists::counts(counts)?;
    sums(xs, counts, parts)?;
    numbers(xs)
}
