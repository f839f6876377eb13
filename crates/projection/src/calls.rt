// The public calls: project_point_to_segment, point_to_segment_distance, point_on_segment.
#![tactic(auto, using(refusals::proofs::Tests::refused))]

ghost use Rattle.std.specs.Prelude.{◌≡◌};
ghost use Rattle.refusals.specs.Answers.{answered};
ghost use Rattle.projection.specs.Calls.{projected, project_call, distance_call, near_call};

use crate::answer::Projection;
use crate::foot::foot_at;
use plane::{Point, segment};
use refusals::{Refusal, row};

// The parameter of the foot of point on the segment p1 p2, 0 at p1 and 1 at p2, and where the foot sits.
#[tactic(auto, using(refusals::proofs::Tests::refused), unfolding(crate::specs::Foot::foot_of))]
pub fn project_point_to_segment(point: Point, p1: Point, p2: Point) -> Result<Projection, Refusal>
    ensures { projected result ≡ project_call point p1 p2 }
{
    row::points3(point, p1, p2)?;
    let parameter = segment::project_point_to_segment(point, p1, p2);
    Ok(Projection {
        parameter,
        foot: foot_at(parameter),
    })
}

// The distance of point from the segment p1 p2.
pub fn point_to_segment_distance(point: Point, p1: Point, p2: Point) -> Result<f64, Refusal>
    ensures { answered result ≡ distance_call point p1 p2 }
{
    row::points3(point, p1, p2)?;
    Ok(segment::point_to_segment_distance(point, p1, p2))
}

// Whether point is nearer to the segment p1 p2 than tol.
#[tactic(auto, using(refusals::proofs::Tests::refused), unfolding(plane::specs::Segment::near_segment_of))]
pub fn point_on_segment(point: Point, p1: Point, p2: Point, tol: f64) -> Result<bool, Refusal>
    ensures { answered result ≡ near_call point p1 p2 tol }
{
    row::near(point, p1, p2, tol)?;
    Ok(segment::point_to_segment_distance(point, p1, p2) < tol)
}
