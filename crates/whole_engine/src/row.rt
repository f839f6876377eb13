// The tests of what the calls are lent: the numbers of single points, and a ring.
ghost use Rattle.std.specs.Prelude.{◌≡◌};
ghost use Rattle.refusals.specs.Answers.{tested};
ghost use Rattle.refusals.specs.Lists.{list_fault};
ghost use Rattle.whole_engine.specs.Rows.{all_in_bounds, wrong_whole, whole_extent, of_whole_ring};

use refusals::lists::fault;
use refusals::screen::unless;
use refusals::{Refusal, VERTICES_MOST};
use shifted::is_within;

// Whether each coordinate of a list is within a million.
fn are_within(list: &[i32]) -> bool
    ensures { result ≡ all_in_bounds list.now }
{
    list.iter().all(|&x| is_within(x))
}

// Coordinates, all of them.
pub fn numbers(list: &[i32]) -> Result<(), Refusal>
    ensures { tested result ≡ wrong_whole list.now }
{
    unless(are_within(list), Refusal::Number)
}

// The length of a ring of 0 to 256 vertices.
fn length(list: &[i32]) -> Result<(), Refusal>
    ensures { tested result ≡ list_fault (whole_extent list.now) 0 }
{
    fault(list.len(), 2, 0, VERTICES_MOST, 0)
}

// A ring of 0 to 256 vertices. The numbers of one with a fault are not read.
#[tactic(auto, using(refusals::proofs::Tests::refused), unfolding(crate::specs::Rows::of_whole_ring))]
pub fn ring(ring: &[i32]) -> Result<(), Refusal>
    ensures { tested result ≡ of_whole_ring ring.now }
{
    length(ring)?;
    numbers(ring)
}
