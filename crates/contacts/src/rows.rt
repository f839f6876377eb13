// The scans of the pairs of one kind, row by row: one point or one edge stays while the edges of the other ring go by.
ghost use Rattle.std.specs.Prelude.{◌≡◌, ◌&&◌, ◌+◌, ◌*◌, ◌<◌, ◌≤◌};
ghost use Rattle.plane.specs.Vector.{minus_of, parallel_of};
ghost use Rattle.plane.specs.Segment.{near_segment_of};
ghost use Rattle.ring.specs.Ring.{count};
ghost use Rattle.frames.specs.Frame.{Around};
ghost use Rattle.contacts.specs.Rows.{FirstFrom, on_edge, along_edge, on_edge_at, along_edge_at};

use frames::{Frame, frame_at, is_apart, is_beside, with_edge};
use near::point_on_segment;
use plane::Point;
use plane::vector::{edges_parallel, minus};
use ring::{next, point_at};

// Whether a point is nearer to a segment than tol; its foot is worked out only where the segment is not beside it.
fn is_on(p: Point, a: Point, b: Point, tol: f64) -> bool
    ensures { result ≡ near_segment_of p a b tol }
{
    if is_beside(p, a, b, tol) {
        return false;
    }
    point_on_segment(p, a, b, tol)
}

// The first edge of a ring, from one on, that a point is near to, or their number.
fn near_edge(p: Point, ring: &[f64], from: usize, tol: f64) -> usize
    requires { from < count ring.now }
    ensures { FirstFrom (on_edge p ring.now tol) from (count ring.now) result }
{
    let n = ring.len() / 2;
    let mut a = point_at(ring, from);
    for i in from..n {
        let b = point_at(ring, next(i, n));
        if is_on(p, a, b, tol) {
            return i;
        }
        a = b;
    }
    n
}

// The same, with the ring's bounds at hand: a point apart from them is near no edge.
fn near_edge_within(p: Point, ring: &[f64], around: Frame, from: usize, tol: f64) -> usize
    requires from_bound { from < count ring.now }
    requires around { Around around ring.now (count ring.now) }
    ensures { FirstFrom (on_edge p ring.now tol) from (count ring.now) result }
{
    if is_apart(around, frame_at(p), tol) {
        return ring.len() / 2;
    }
    near_edge(p, ring, from, tol)
}

// Whether the edges a b and c d are parallel and both ends of the second are near the first.
fn aligned(starts: bool, ends: bool, a: Point, b: Point, c: Point, d: Point) -> bool
    ensures { result ≡ (parallel_of (minus_of b a) (minus_of d c) && (starts && ends)) }
{
    if starts {
        if ends {
            edges_parallel(minus(b, a), minus(d, c))
        } else {
            false
        }
    } else {
        false
    }
}

// The first edge of a ring, from one on, that lies along the edge a b, or their number.
fn edge_along(a: Point, b: Point, ring: &[f64], from: usize, tol: f64) -> usize
    requires { from < count ring.now }
    ensures { FirstFrom (along_edge a b ring.now tol) from (count ring.now) result }
{
    let n = ring.len() / 2;
    let mut c = point_at(ring, from);
    let mut starts = is_on(c, a, b, tol);
    for i in from..n {
        let d = point_at(ring, next(i, n));
        let ends = is_on(d, a, b, tol);
        if aligned(starts, ends, a, b, c, d) {
            return i;
        }
        c = d;
        starts = ends;
    }
    n
}

// The same, with the ring's bounds at hand: an edge apart from them has no edge along it.
fn edge_along_within(
    a: Point,
    b: Point,
    ring: &[f64],
    around: Frame,
    from: usize,
    tol: f64,
) -> usize
    requires from_bound { from < count ring.now }
    requires around { Around around ring.now (count ring.now) }
    ensures { FirstFrom (along_edge a b ring.now tol) from (count ring.now) result }
{
    if is_apart(with_edge(frame_at(a), a, b), around, tol) {
        return ring.len() / 2;
    }
    edge_along(a, b, ring, from, tol)
}

// The first pair of a vertex of one list and an edge of a ring, in bounds that are around it, that are near, from the vertex v and the edge
// e on, or the number of pairs.
pub fn scan_vertices(
    points: &[f64],
    ring: &[f64],
    around: Frame,
    v: usize,
    e: usize,
    tol: f64,
) -> usize
    requires v_bound { (v < count points.now) × (e < count ring.now) }
    requires points_bound { (count points.now ≤ 256) × (count ring.now ≤ 256) }
    requires around { Around around ring.now (count ring.now) }
    ensures { FirstFrom (on_edge_at points.now ring.now tol) (v * count ring.now + e)
        (count points.now * count ring.now) result }
{
    let vn = points.len() / 2;
    let en = ring.len() / 2;
    let mut from = e;
    for i in v..vn {
        let j = near_edge_within(point_at(points, i), ring, around, from, tol);
        if j < en {
            return i * en + j;
        }
        from = 0;
    }
    vn * en
}

// The same of edges of both that touch.
pub fn scan_edges(
    stationary: &[f64],
    orbiting: &[f64],
    around: Frame,
    s: usize,
    o: usize,
    tol: f64,
) -> usize
    requires s_bound { (s < count stationary.now) × (o < count orbiting.now) }
    requires stationary_bound { (count stationary.now ≤ 256) × (count orbiting.now ≤ 256) }
    requires around { Around around orbiting.now (count orbiting.now) }
    ensures { FirstFrom (along_edge_at stationary.now orbiting.now tol) (s * count orbiting.now + o)
        (count stationary.now * count orbiting.now) result }
{
    let sn = stationary.len() / 2;
    let on = orbiting.len() / 2;
    let mut from = o;
    for i in s..sn {
        let a = point_at(stationary, i);
        let b = point_at(stationary, next(i, sn));
        let j = edge_along_within(a, b, orbiting, around, from, tol);
        if j < on {
            return i * on + j;
        }
        from = 0;
    }
    sn * on
}
