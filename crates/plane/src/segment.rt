// A point against a segment: the foot's parameter and the two distances.
ghost use Rattle.std.specs.Prelude.{◌≡◌};
ghost use Rattle.plane.specs.Segment.{clamped_foot, project_of, along_of, to_segment_of, segment_distance_of, ring_foot_of};

use crate::Point;
use crate::vector::{distance, dot, minus};

// The parameter of the foot of p on the line from a along d, whose squared length is len2, cut to 0 .. 1.
fn clamped_foot(p: Point, a: Point, d: Point, len2: f64) -> f64
    ensures { result ≡ clamped_foot p a d len2 }
{
    scalar::clamp(dot(minus(p, a), d) / len2, 0.0, 1.0)
}

// The parameter of the foot of point on the segment p1 p2: 0 at p1, 1 at p2, and 0 where the segment's squared length is below 1e-20.
pub fn project_point_to_segment(point: Point, p1: Point, p2: Point) -> f64
    ensures { result ≡ project_of point p1 p2 }
{
    let d = minus(p2, p1);
    let len_sq = dot(d, d);
    if len_sq < 1e-20 {
        return 0.0;
    }
    clamped_foot(point, p1, d, len_sq)
}

// The point of the segment p1 p2 at the parameter t.
pub fn along(p1: Point, p2: Point, t: f64) -> Point
    ensures { result ≡ along_of p1 p2 t }
{
    let d = minus(p2, p1);
    Point {
        x: p1.x + t * d.x,
        y: p1.y + t * d.y,
    }
}

// The distance of a point from a segment, as the sliding works it out.
pub fn point_to_segment_distance(point: Point, p1: Point, p2: Point) -> f64
    ensures { result ≡ to_segment_of point p1 p2 }
{
    let t = project_point_to_segment(point, p1, p2);
    distance(point, along(p1, p2, t))
}

// The parameter of the foot of p on the segment a b, 0 where the segment has no length: the ring predicates' own form.
fn foot(p: Point, a: Point, b: Point) -> f64
    ensures { result ≡ ring_foot_of p a b }
{
    let d = minus(b, a);
    let len2 = dot(d, d);
    if len2 == 0.0 {
        return 0.0;
    }
    clamped_foot(p, a, d, len2)
}

// The distance of a point from a segment, as the ring predicates work it out.
pub fn point_segment_distance(p: Point, a: Point, b: Point) -> f64
    ensures { result ≡ segment_distance_of p a b }
{
    let d = minus(b, a);
    let t = foot(p, a, b);
    let x = p.x - a.x - t * d.x;
    let y = p.y - a.y - t * d.y;
    square_root::sqrt(x * x + y * y)
}
