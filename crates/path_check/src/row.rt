// The tests of what the call is lent: two polygons and a path of 3 to 10,001 points, their numbers, the settings.
ghost use Rattle.std.specs.Prelude.{◌≡◌};
ghost use Rattle.refusals.specs.Answers.{tested};
ghost use Rattle.path_check.specs.Rows.{path_lengths, path_numbers, of_path};

use refusals::lists::{fault, polygon};
use refusals::screen::{finite_numbers, numbers, settings};
use refusals::{POINTS_MOST, Refusal, Settings};

// The fewest points of a path.
const POINTS_LEAST: usize = 3;

// The faults of the three lists.
#[tactic(auto, using(refusals::proofs::Tests::refused), unfolding(crate::specs::Rows::path_lengths))]
fn path_lengths(stationary: &[f64], orbiting: &[f64], path: &[f64]) -> Result<(), Refusal>
    ensures { tested result ≡ path_lengths stationary.now orbiting.now path.now }
{
    polygon(stationary, 0)?;
    polygon(orbiting, 1)?;
    fault(path.len(), 2, POINTS_LEAST, POINTS_MOST, 2)
}

// Their numbers, and the settings.
#[tactic(auto, using(refusals::proofs::Tests::refused), unfolding(crate::specs::Rows::path_numbers))]
fn path_numbers(
    stationary: &[f64],
    orbiting: &[f64],
    s: Settings,
    path: &[f64],
) -> Result<(), Refusal>
    ensures { tested result ≡ path_numbers stationary.now orbiting.now s path.now }
{
    numbers(stationary)?;
    numbers(orbiting)?;
    finite_numbers(path)?;
    settings(s)
}

// All of this. The numbers are not read where a list has a fault.
#[tactic(auto, using(refusals::proofs::Tests::refused), unfolding(crate::specs::Rows::of_path))]
pub fn checking(
    stationary: &[f64],
    orbiting: &[f64],
    s: Settings,
    path: &[f64],
) -> Result<(), Refusal>
    ensures { tested result ≡ of_path stationary.now orbiting.now s path.now }
{
    path_lengths(stationary, orbiting, path)?;
    path_numbers(stationary, orbiting, s, path)
}
