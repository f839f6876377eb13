// The public call: check_translation_collision.
#![tactic(auto, using(refusals::proofs::Tests::refused))]

ghost use Rattle.std.specs.Prelude.{◌≡◌};
ghost use Rattle.refusals.specs.Answers.{answered};
ghost use Rattle.collision.specs.Calls.{collision_call};

use crate::Hit;
use plane::Point;
use refusals::{Refusal, row};

// What orbiting, moved by translation, runs into first: nothing, or the hit's distance, its kind and both indices.
pub fn check_translation_collision(
    stationary: &[f64],
    orbiting: &[f64],
    translation: Point,
    tolerance: f64,
) -> Result<Option<Hit>, Refusal>
    ensures { answered result ≡ collision_call stationary.now orbiting.now translation tolerance }
{
    row::moving(stationary, orbiting, translation, tolerance)?;
    Ok(crate::check_translation_collision(stationary, orbiting, translation, tolerance))
}
