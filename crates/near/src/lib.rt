// Whether a length is below a tolerance, or above it, without a root where the square is so far above the tolerance's that it tells.
#![tactic(auto)]

ghost use Rattle.std.specs.Prelude.{◌≡◌};
ghost use Rattle.std.specs.Float.Ieee.{lt};
ghost use Rattle.plane.specs.Vector.{length_of, distance_of};
ghost use Rattle.plane.specs.Segment.{near_segment_of};

use plane::Point;
use plane::segment::{along, project_point_to_segment};
use plane::vector::{dot, minus};
use square_root::sqrt;

// Whether a vector is shorter than tol.
pub fn is_shorter(v: Point, tol: f64) -> bool
    ensures { result ≡ lt (length_of v) tol }
{
    let s = dot(v, v);
    if tol > 0.0 {
        if s > tol * tol {
            return false;
        }
    }
    sqrt(s) < tol
}

// Whether a vector is longer than tol.
pub fn is_longer(v: Point, tol: f64) -> bool
    ensures { result ≡ lt tol (length_of v) }
{
    let s = dot(v, v);
    if tol > 0.0 {
        if s * 0.25 > tol * tol {
            return true;
        }
    }
    sqrt(s) > tol
}

// Whether two points are nearer to each other than tol.
pub fn is_near(a: Point, b: Point, tol: f64) -> bool
    ensures { result ≡ lt (distance_of a b) tol }
{
    is_shorter(minus(b, a), tol)
}

// Whether two points are farther from each other than tol.
pub fn is_far(a: Point, b: Point, tol: f64) -> bool
    ensures { result ≡ lt tol (distance_of a b) }
{
    is_longer(minus(b, a), tol)
}

// Whether a point is nearer to a segment than tol.
pub fn point_on_segment(p: Point, a: Point, b: Point, tol: f64) -> bool
    ensures { result ≡ near_segment_of p a b tol }
{
    is_near(p, along(a, b, project_point_to_segment(p, a, b)), tol)
}
