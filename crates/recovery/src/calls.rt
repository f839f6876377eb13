// The public call: recover_contact.
#![tactic(auto, using(refusals::proofs::Tests::refused))]

ghost use Rattle.std.specs.Prelude.{◌≡◌};
ghost use Rattle.refusals.specs.Answers.{answered};
ghost use Rattle.recovery.specs.Calls.{recover_call};

use plane::Point;
use refusals::{Refusal, row};

// Where the orbiting polygon, lent where it is, is moved to from its current position to touch the stationary one again, or nothing.
pub fn recover_contact(
    stationary: &[f64],
    orbiting: &[f64],
    current: Point,
    tolerance: f64,
) -> Result<Option<Point>, Refusal>
    ensures { answered result ≡ recover_call stationary.now orbiting.now current tolerance }
{
    row::moving(stationary, orbiting, current, tolerance)?;
    Ok(crate::recover_contact(stationary, orbiting, current, tolerance))
}
