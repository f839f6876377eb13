// The public call: is_simple_polygon.
#![tactic(auto, using(refusals::proofs::Tests::refused))]

ghost use Rattle.std.specs.Prelude.{◌≡◌};
ghost use Rattle.refusals.specs.Answers.{answered};
ghost use Rattle.simple_polygon.specs.Calls.{is_simple_call};

use refusals::{Refusal, row};

// Whether a ring is simple. Fewer than three vertices are not.
pub fn is_simple_polygon(ring: &[f64]) -> Result<bool, Refusal>
    ensures { answered result ≡ is_simple_call ring.now }
{
    row::ring(ring)?;
    Ok(crate::is_simple_polygon(ring))
}
