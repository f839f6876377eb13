// The shortest distance between the edges of two rings that do not cross: `ring_distance` of `polygon_ops.rs`.
// Squared distances are compared, and the least alone has its root taken.
#![tactic(auto)]

pub mod calls;
mod far;

ghost use Rattle.std.specs.Prelude.{◌≡◌, ◌+◌, ◌*◌, ◌<◌, ◌≤◌, length};
ghost use Rattle.plane.specs.Vector.{dot_of};
ghost use Rattle.ring.specs.Ring.{count};
ghost use Rattle.ring_distance.specs.Distance.{ring_distance_of};
ghost use Rattle.ring_distance.specs.Squared.{foot_along, squared_from, squared_distance, nearer_of, squared_to, squared_way, Carries};
ghost use Rattle.ring_distance.specs.Far.{BoundsEdges, bounds_at, Ready};

use chains::chain_end;
use far::{NUMBERS, fill, is_chained, is_far};
use plane::Point;
use plane::vector::{dot, minus};
use ring::{next, point_at};

// The parameter of the foot of w on the segment from (0, 0) to d, whose squared length is len2.
fn foot(w: Point, d: Point, len2: f64) -> f64
    requires { len2 ≡ dot_of d d }
    ensures { result ≡ foot_along w d }
{
    if len2 == 0.0 {
        return 0.0;
    }
    scalar::clamp(dot(w, d) / len2, 0.0, 1.0)
}

// The squared distance of w from that segment.
fn squared(w: Point, d: Point, len2: f64) -> f64
    requires { len2 ≡ dot_of d d }
    ensures { result ≡ squared_from w d }
{
    let t = foot(w, d, len2);
    let v = Point {
        x: w.x - t * d.x,
        y: w.y - t * d.y,
    };
    dot(v, v)
}

// The smaller of two squares, the first where the second is a NaN.
fn nearer(least: f64, s: f64) -> f64
    ensures { result ≡ nearer_of least s }
{
    if s < least { s } else { least }
}

// The smaller of what was found before and the squared distance of p from the segment a b.
fn to_edge(p: Point, a: Point, b: Point, before: f64) -> f64
    ensures { result ≡ nearer_of before (squared_distance p a b) }
{
    let d = minus(b, a);
    nearer(before, squared(minus(p, a), d, dot(d, d)))
}

// The smallest of what was found before and the squared distances of p from each edge of a ring.
fn to_ring(p: Point, ring: &[f64], before: f64) -> f64
    ensures { result ≡ squared_to p ring.now before (count ring.now) }
{
    let n = ring.len() / 2;
    if n == 0 {
        return before;
    }
    let first = point_at(ring, 0);
    let mut least = before;
    let mut a = first;
    for i in 1..n {
        let b = point_at(ring, i);
        least = to_edge(p, a, b, least);
        a = b;
    }
    to_edge(p, a, first, least)
}

// The least with a ring's edges from one on and below another, where it was that of the edges before.
fn to_edges(p: Point, ring: &[f64], from: usize, to: usize, before: f64) -> f64
    requires { (from < to) × (to ≤ count ring.now) }
    ensures { Carries p ring.now from to before result }
{
    let n = ring.len() / 2;
    let mut least = before;
    let mut a = point_at(ring, from);
    for e in from..to {
        let b = point_at(ring, next(e, n));
        least = to_edge(p, a, b, least);
        a = b;
    }
    least
}

// The same with the edges of the chain c, which are passed over where they lie far off.
fn to_chain(
    p: Point,
    ring: &[f64],
    table: &[f64],
    c: usize,
    from: usize,
    to: usize,
    least: f64,
) -> f64
    requires from_lt_to { (from < to) × (to ≤ count ring.now) }
    requires c_in_bounds { 8 * c + 8 ≤ length table.now }
    requires bounds_edges { BoundsEdges (bounds_at table.now c) ring.now from to }
    ensures { Carries p ring.now from to least result }
{
    if is_far(table, c, p, least) {
        return least;
    }
    to_edges(p, ring, from, to, least)
}

// What `to_ring` answers, chain by chain.
fn to_chains(p: Point, ring: &[f64], table: &[f64], before: f64) -> f64
    requires { Ready table.now ring.now }
    ensures { result ≡ squared_to p ring.now before (count ring.now) }
{
    let n = ring.len() / 2;
    if is_far(table, 32, p, before) {
        return before;
    }
    let mut least = before;
    for c in 0..n.div_ceil(8) {
        let from = 8 * c;
        least = to_chain(p, ring, table, c, from, chain_end(from, n), least);
    }
    least
}

// The smallest of what was found before and the squared distances of each vertex of one ring from each edge of the other.
fn plain_way(points: &[f64], ring: &[f64], before: f64) -> f64
    ensures { result ≡ squared_way points.now ring.now before (count points.now) }
{
    let n = points.len() / 2;
    let mut least = before;
    for i in 0..n {
        least = to_ring(point_at(points, i), ring, least);
    }
    least
}

// The same, chain by chain.
fn way_by(points: &[f64], ring: &[f64], table: &[f64], before: f64) -> f64
    requires { Ready table.now ring.now }
    ensures { result ≡ squared_way points.now ring.now before (count points.now) }
{
    let n = points.len() / 2;
    let mut least = before;
    for i in 0..n {
        least = to_chains(point_at(points, i), ring, table, least);
    }
    least
}

// The same, with the table.
fn chained_way(points: &[f64], ring: &[f64], before: f64) -> f64
    requires { (0 < count ring.now) × (count ring.now ≤ 256) }
    ensures { result ≡ squared_way points.now ring.now before (count points.now) }
{
    let mut table = [0.0; NUMBERS];
    fill(ring, &mut table);
    way_by(points, ring, &table, before)
}

// The same, in the way that takes less.
fn one_way(points: &[f64], ring: &[f64], before: f64) -> f64
    ensures { result ≡ squared_way points.now ring.now before (count points.now) }
{
    if is_chained(points.len() / 2, ring.len() / 2) {
        chained_way(points, ring, before)
    } else {
        plain_way(points, ring, before)
    }
}

// The smaller of the two ways, +infinity where there is none. The second goes on from what the first has found.
fn ring_distance(a: &[f64], b: &[f64]) -> f64
    ensures { result ≡ ring_distance_of a.now b.now }
{
    square_root::sqrt(one_way(b, a, one_way(a, b, 1.0 / 0.0)))
}
