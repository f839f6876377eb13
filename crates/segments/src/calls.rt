// The public calls: orientation, on_segment, segments_intersect.
#![tactic(auto, using(refusals::proofs::Tests::refused))]

ghost use Rattle.std.specs.Prelude.{◌≡◌};
ghost use Rattle.refusals.specs.Answers.{answered, turn};
ghost use Rattle.segments.specs.Calls.{orientation_call, on_segment_call, intersect_call};

use plane::{Orientation, Point};
use refusals::Refusal;
use refusals::row::{points3, points4};

// The turn of a, b, c: 1 counter-clockwise, -1 clockwise, 0 collinear.
pub fn orientation(a: Point, b: Point, c: Point) -> Result<Orientation, Refusal>
    ensures { turn result ≡ orientation_call a b c }
{
    points3(a, b, c)?;
    Ok(crate::orientation(a, b, c))
}

// Whether p, known to be collinear with the segment a b, lies on it.
pub fn on_segment(a: Point, b: Point, p: Point) -> Result<bool, Refusal>
    ensures { answered result ≡ on_segment_call a b p }
{
    points3(a, b, p)?;
    Ok(crate::on_segment(a, b, p))
}

// Whether the closed segments p1 p2 and p3 p4 meet.
pub fn segments_intersect(p1: Point, p2: Point, p3: Point, p4: Point) -> Result<bool, Refusal>
    ensures { answered result ≡ intersect_call p1 p2 p3 p4 }
{
    points4(p1, p2, p3, p4)?;
    Ok(crate::segments_intersect(p1, p2, p3, p4))
}
