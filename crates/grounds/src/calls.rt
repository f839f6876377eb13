// The public call: explain_collision.
#![tactic(auto, using(refusals::proofs::Tests::refused, crate::proofs::Screened::lent_is))]

ghost use Rattle.std.specs.Prelude.{◌≡◌};
ghost use Rattle.grounds.specs.Calls.{explained, explain_call};

use crate::Explanation;
use plane::Point;
use refusals::{Refusal, row};

// What orbiting, moved by translation, runs into first, or why into nothing, with the counts of all hits.
pub fn explain_collision(
    stationary: &[f64],
    orbiting: &[f64],
    translation: Point,
    tolerance: f64,
) -> Result<Explanation, Refusal>
    ensures { explained result ≡ explain_call stationary.now orbiting.now translation tolerance }
{
    row::moving(stationary, orbiting, translation, tolerance)?;
    Ok(crate::explain_collision(stationary, orbiting, translation, tolerance))
}
