// The public call: detect_interlocking_opportunity.
#![tactic(auto, using(refusals::proofs::Tests::refused))]

ghost use Rattle.std.specs.Prelude.{◌≡◌};
ghost use Rattle.refusals.specs.Answers.{answered};
ghost use Rattle.interlocking.specs.Calls.{interlock_call};

use plane::Point;
use refusals::{Refusal, row};

// The first position toward a concave vertex at which the orbiting polygon, lent as drawn, does not overlap, or nothing.
pub fn detect_interlocking_opportunity(
    stationary: &[f64],
    orbiting: &[f64],
    current: Point,
    tolerance: f64,
) -> Result<Option<Point>, Refusal>
    ensures { answered result ≡ interlock_call stationary.now orbiting.now current tolerance }
{
    row::moving(stationary, orbiting, current, tolerance)?;
    Ok(crate::detect_interlocking_opportunity(stationary, orbiting, current, tolerance))
}
