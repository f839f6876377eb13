// Which way three points turn, and whether two segments meet: the segment predicates of `polygon_ops.rs`.
#![tactic(auto)]

pub mod calls;

ghost use Rattle.std.specs.Prelude.{◌≡◌};
ghost use Rattle.plane.specs.Orientation.{turn_number};
ghost use Rattle.segments.specs.Segments.{sign_of, orientation_of, between_of, on_segment_of};
ghost use Rattle.segments.specs.Segments.{straddles_of, crosses_of, touches_of, intersect_of};

use plane::vector::turn;
use plane::{Orientation, Point};
use scalar::{larger, smaller};

// Counter-clockwise where a turn is above 1e-9, clockwise where it is below -1e-9, else collinear.
fn sign(cross: f64) -> Orientation
    ensures { turn_number result ≡ sign_of cross }
{
    if cross > 1e-9 {
        Orientation::CounterClockwise
    } else if cross < -1e-9 {
        Orientation::Clockwise
    } else {
        Orientation::Collinear
    }
}

// Which way a, b, c turn.
pub fn orientation(a: Point, b: Point, c: Point) -> Orientation
    ensures { turn_number result ≡ orientation_of a b c }
{
    sign(turn(a, b, c))
}

// Whether p lies between a and b, or at most 1e-9 past one of them.
fn between(a: f64, b: f64, p: f64) -> bool
    ensures { result ≡ between_of a b p }
{
    if p >= smaller(a, b) - 1e-9 {
        p <= larger(a, b) + 1e-9
    } else {
        false
    }
}

// Whether p, known to be collinear with the segment a b, lies within its box.
pub fn on_segment(a: Point, b: Point, p: Point) -> bool
    ensures { result ≡ on_segment_of a b p }
{
    if between(a.x, b.x, p.x) {
        between(a.y, b.y, p.y)
    } else {
        false
    }
}

// Whether one of two turns is counter-clockwise and the other clockwise.
fn straddles(d: Orientation, e: Orientation) -> bool
    ensures { result ≡ straddles_of (turn_number d) (turn_number e) }
{
    match d {
        Orientation::CounterClockwise => match e {
            Orientation::CounterClockwise => false,
            Orientation::Clockwise => true,
            Orientation::Collinear => false,
        },
        Orientation::Clockwise => match e {
            Orientation::CounterClockwise => true,
            Orientation::Clockwise => false,
            Orientation::Collinear => false,
        },
        Orientation::Collinear => false,
    }
}

// Whether each of two segments straddles the line of the other, by the turns of its ends.
pub fn crosses(d1: Orientation, d2: Orientation, d3: Orientation, d4: Orientation) -> bool
    ensures { result ≡ crosses_of (turn_number d1) (turn_number d2) (turn_number d3) (turn_number d4) }
{
    if straddles(d1, d2) {
        straddles(d3, d4)
    } else {
        false
    }
}

// Whether p, whose turn with a and b is d, lies on the segment a b.
fn touches(d: Orientation, a: Point, b: Point, p: Point) -> bool
    ensures { result ≡ touches_of (turn_number d) a b p }
{
    match d {
        Orientation::CounterClockwise => false,
        Orientation::Clockwise => false,
        Orientation::Collinear => on_segment(a, b, p),
    }
}

// Whether the closed segments p1 p2 and p3 p4 meet.
pub fn segments_intersect(p1: Point, p2: Point, p3: Point, p4: Point) -> bool
    ensures { result ≡ intersect_of p1 p2 p3 p4 }
{
    let d1 = orientation(p3, p4, p1);
    let d2 = orientation(p3, p4, p2);
    let d3 = orientation(p1, p2, p3);
    let d4 = orientation(p1, p2, p4);
    if crosses(d1, d2, d3, d4) {
        return true;
    }
    if touches(d1, p3, p4, p1) {
        return true;
    }
    if touches(d2, p3, p4, p2) {
        return true;
    }
    if touches(d3, p1, p2, p3) {
        return true;
    }
    touches(d4, p1, p2, p4)
}
