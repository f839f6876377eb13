// The public calls: point_segment_distance, ring_distance.
#![tactic(auto, using(refusals::proofs::Tests::refused))]

ghost use Rattle.std.specs.Prelude.{◌≡◌};
ghost use Rattle.refusals.specs.Answers.{answered};
ghost use Rattle.ring_distance.specs.Calls.{segment_distance_call, ring_distance_call};

use plane::Point;
use refusals::{Refusal, row};

// The distance of p from the segment a b.
pub fn point_segment_distance(p: Point, a: Point, b: Point) -> Result<f64, Refusal>
    ensures { answered result ≡ segment_distance_call p a b }
{
    row::points3(p, a, b)?;
    Ok(plane::segment::point_segment_distance(p, a, b))
}

// The shortest distance between the edges of two rings, +infinity where one has no vertex.
pub fn ring_distance(a: &[f64], b: &[f64]) -> Result<f64, Refusal>
    ensures { answered result ≡ ring_distance_call a.now b.now }
{
    row::two_rings(a, b)?;
    Ok(crate::ring_distance(a, b))
}
