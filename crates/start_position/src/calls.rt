// The public call: find_start_position.
#![tactic(auto, using(refusals::proofs::Tests::refused))]

ghost use Rattle.std.specs.Prelude.{◌≡◌};
ghost use Rattle.refusals.specs.Answers.{answered};
ghost use Rattle.start_position.specs.Calls.{start_call};

use plane::Point;
use refusals::{Refusal, row};

// The position of orbiting, as drawn, at which its highest vertex is stationary's lowest.
pub fn find_start_position(stationary: &[f64], orbiting: &[f64]) -> Result<Point, Refusal>
    ensures { answered result ≡ start_call stationary.now orbiting.now }
{
    row::two_polygons(stationary, orbiting)?;
    Ok(crate::find_start_position(stationary, orbiting))
}
