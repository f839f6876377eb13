// The vectors of a contact, their distances not worked out: a distance is a root, and most vectors are passed over by their squares.
ghost use Rattle.std.specs.Prelude.{◌≡◌, true, false};
ghost use Rattle.std.specs.Float.Ieee.{lt};
ghost use Rattle.scalar.specs.Float.{◌⊕◌, f1};
ghost use Rattle.scalar.specs.Scalar.{smaller_of};
ghost use Rattle.plane.specs.Vector.{length_of};
ghost use Rattle.vectors.specs.Vectors.{vector, direction_of, vertex_edge, edge_vertex, edge_edge, vector_by};
ghost use Rattle.vectors.specs.Courses.{f1·5, vector_is, along_by};

use crate::{TranslationVector, direction, opposite};
use contacts::Edges;
use near::is_shorter;
use plane::Point;
use plane::vector::{dot, length, minus};
use scalar::smaller;

// A direction, and the gap that is as long as the distance, or two whose lengths' sum it is: how many it has is told. No field is
// narrower than the others, so that a copy goes by whole words.
#[derive(Clone, Copy)]
pub struct Course {
    pub direction: Point,
    pub first: Point,
    pub second: Point,
    pub gaps: u64,
}

// That of one gap.
pub fn over(direction: Point, gap: Point) -> Course
    ensures { vector_is result ≡ vector direction (length_of gap) }
{
    Course {
        direction,
        first: gap,
        second: gap,
        gaps: 1,
    }
}

// That of two.
fn over_two(direction: Point, first: Point, second: Point) -> Course
    ensures { vector_is result ≡ vector direction (length_of first ⊕ length_of second) }
{
    Course {
        direction,
        first,
        second,
        gaps: 2,
    }
}

// The unit vector along the edge that the vectors of a contact follow.
pub fn along_by(kind: u8, e: Edges) -> Point
    ensures { result ≡ along_by kind e }
{
    match kind {
        1 => direction(e.c, e.d),
        _ => direction(e.a, e.b),
    }
}

// The orbiting vertex on the stationary edge.
fn over_edge(e: Edges, along: Point, side: usize) -> Course
    requires { along ≡ direction_of e.a e.b }
    ensures { vector_is result ≡ vertex_edge e side }
{
    if side == 0 {
        return over(along, minus(e.b, e.c));
    }
    over(opposite(along), minus(e.a, e.c))
}

// The stationary vertex on the orbiting edge.
fn over_vertex(e: Edges, along: Point, side: usize) -> Course
    requires { along ≡ direction_of e.c e.d }
    ensures { vector_is result ≡ edge_vertex e side }
{
    if side == 0 {
        return over(opposite(along), minus(e.d, e.a));
    }
    over(along, minus(e.c, e.a))
}

// Two edges.
fn over_both(e: Edges, along: Point, side: usize) -> Course
    requires { along ≡ direction_of e.a e.b }
    ensures { vector_is result ≡ edge_edge e side }
{
    let first = minus(e.b, e.a);
    let second = minus(e.d, e.c);
    if side == 0 {
        return over_two(along, first, second);
    }
    over_two(opposite(along), first, second)
}

// A vector of a contact with these edges, by its kind: the first at side 0, the second at side 1.
pub fn course_by(kind: u8, e: Edges, along: Point, side: usize) -> Course
    requires { along ≡ along_by kind e }
    ensures { vector_is result ≡ vector_by kind e side }
{
    match kind {
        0 => over_edge(e, along, side),
        1 => over_vertex(e, along, side),
        _ => over_both(e, along, side),
    }
}

// The vector.
pub fn to_vector(course: Course) -> TranslationVector
    ensures { result ≡ vector_is course }
{
    let direction = course.direction;
    let first = length(course.first);
    if course.gaps == 1 {
        return TranslationVector {
            direction,
            distance: first,
        };
    }
    let second = length(course.second);
    TranslationVector {
        direction,
        distance: first + second,
    }
}

// Its direction.
pub fn direction_of(course: Course) -> Point
    ensures { result ≡ (vector_is course).direction }
{
    course.direction
}

// Whether its distance is below a limit.
pub fn is_below(course: Course, limit: f64) -> bool
    ensures { result ≡ lt (vector_is course).distance limit }
{
    let first = course.first;
    let second = course.second;
    if course.gaps == 1 {
        return is_shorter(first, limit);
    }
    if is_shorter(first, limit) {
        length(first) + length(second) < limit
    } else {
        false
    }
}

// Whether a vector is longer than one, as far as its square tells.
fn is_long(v: Point) -> bool
    ensures { result ≡ true → lt (length_of v) f1·5 ≡ false }
{
    dot(v, v) > 1.5 * 1.5
}

// Its distance, 1.0 at most.
pub fn reach(course: Course) -> f64
    ensures { result ≡ smaller_of (vector_is course).distance f1 }
{
    let first = course.first;
    let second = course.second;
    if is_long(first) {
        return 1.0;
    }
    if course.gaps == 1 {
        return smaller(length(first), 1.0);
    }
    smaller(length(first) + length(second), 1.0)
}
