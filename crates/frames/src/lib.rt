// A frame around a ring's vertices and edges: where a frame of points lies apart from one of edges, no point is near an edge.
#![tactic(auto)]

ghost use Rattle.std.specs.Prelude.{◌≡◌, true, false, ◌<◌, T};
ghost use Rattle.std.specs.Float.{binary64};
ghost use Rattle.std.specs.Float.Ieee.{fits};
ghost use Rattle.plane.specs.Segment.{near_segment_of};
ghost use Rattle.ring.specs.Ring.{count};
ghost use Rattle.frames.specs.Frame.{lower_number, higher_number, Inside, WithinFrame, HeldPoint, Spans, Around, wide, margin_of, beyond, apart, past};

use plane::Point;
use plane::vector::{minus, plus};
use ring::{next, point_at};

// The least and the greatest coordinate along each axis.
#[derive(Clone, Copy)]
pub struct Frame {
    pub left: f64,
    pub right: f64,
    pub low: f64,
    pub high: f64,
}

// Whether along one axis edges from low to high lie more than so far above points from bottom to top, or below them.
fn is_beyond(low: f64, high: f64, bottom: f64, top: f64, far: f64) -> bool
    ensures { result ≡ beyond low high bottom top far }
{
    if low - top > far {
        return true;
    }
    high - bottom < -far
}

// Whether so far is above zero and its square above that of a tolerance, which is above zero too.
fn is_wide(tol: f64, far: f64) -> bool
    ensures { result ≡ wide tol far }
{
    if tol > 0.0 {
        if far * far > tol * tol {
            return far > 0.0;
        }
    }
    false
}

// Twice a tolerance, where that is wide, and else a NaN, which nothing is above or below.
fn margin(tol: f64) -> f64
    ensures { (result ≡ margin_of tol) × T (fits binary64 tol) }
{
    let far = tol + tol;
    if is_wide(tol, far) { far } else { 0.0 / 0.0 }
}

// Whether the edges in some bounds lie apart from the points in others, so that no point is nearer to an edge than tol.
pub fn is_apart(edges: Frame, points: Frame, tol: f64) -> bool
    ensures { (result ≡ apart edges points tol) × T (fits binary64 tol) }
{
    let far = margin(tol);
    if is_beyond(edges.left, edges.right, points.left, points.right, far) {
        return true;
    }
    is_beyond(edges.low, edges.high, points.low, points.high, far)
}

// Whether along one axis both ends of an edge from a to b lie more than so far above p, or below it.
fn is_past(p: f64, a: f64, b: f64, far: f64) -> bool
    ensures { (result ≡ past p a b far) × T (fits binary64 a) }
{
    let g = a - p;
    let h = a + (b - a) - p;
    if g > far {
        return h > far;
    }
    if g < -far {
        return h < -far;
    }
    false
}

// Whether both ends of the edge a b lie past p along one of the axes: then p is not nearer to it than tol.
pub fn is_beside(p: Point, a: Point, b: Point, tol: f64) -> bool
    ensures { result ≡ true → near_segment_of p a b tol ≡ false }
{
    let far = margin(tol);
    if is_past(p.x, a.x, b.x, far) {
        return true;
    }
    is_past(p.y, a.y, b.y, far)
}

// The bounds of one point.
pub fn frame_at(p: Point) -> Frame
    ensures { Inside result p }
{
    Frame {
        left: p.x,
        right: p.x,
        low: p.y,
        high: p.y,
    }
}

// The lower of a bound and a number, and the higher: a NaN leaves the bound.
fn lower(bound: f64, x: f64) -> f64
    ensures { (result ≡ lower_number bound x) × T (fits binary64 x) }
{
    if x < bound { x } else { bound }
}

pub fn higher(bound: f64, x: f64) -> f64
    ensures { result ≡ higher_number bound x }
{
    if bound < x { x } else { bound }
}

// Bounds with a point taken in.
pub fn with_point(q: Frame, p: Point) -> Frame
    ensures { Inside result p × (WithinFrame q result × HeldPoint p) }
{
    Frame {
        left: lower(q.left, p.x),
        right: higher(q.right, p.x),
        low: lower(q.low, p.y),
        high: higher(q.high, p.y),
    }
}

// Bounds with the edge a b taken in.
pub fn with_edge(q: Frame, a: Point, b: Point) -> Frame
    ensures { Spans result a b × WithinFrame q result }
{
    with_point(with_point(q, a), plus(a, minus(b, a)))
}

// The bounds of a ring's vertices and edges.
pub fn frame_of(ring: &[f64]) -> Frame
    requires { 0 < count ring.now }
    ensures { Around result ring.now (count ring.now) }
{
    let n = ring.len() / 2;
    let mut a = point_at(ring, 0);
    let mut q = frame_at(a);
    for i in 0..n {
        let b = point_at(ring, next(i, n));
        q = with_edge(q, a, b);
        a = b;
    }
    q
}
