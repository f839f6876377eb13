// The centroid of a polygon, by docs/SCOPE.md's formula: of its area, or of its vertices where the area is close to zero.
#![tactic(auto)]

ghost use Rattle.std.specs.Prelude.{◌≡◌, ◌<◌};
ghost use Rattle.ring.specs.Ring.{count};
ghost use Rattle.centroid.specs.Centroid.{grown_of, moments_to, total_to, mean_of, centroid_of};

use plane::Point;
use plane::vector::plus;
use ring::{next, point_at};
use scalar::abs;

// The sums over the edges of a polygon: twice the area, and six times its moments.
#[derive(Clone, Copy)]
pub struct Moments {
    pub area: f64,
    pub x: f64,
    pub y: f64,
}

// The sums with the edge from p to q.
fn grown(m: Moments, p: Point, q: Point) -> Moments
    ensures { result ≡ grown_of m p q }
{
    let c = p.x * q.y - q.x * p.y;
    Moments {
        area: m.area + c,
        x: m.x + (p.x + q.x) * c,
        y: m.y + (p.y + q.y) * c,
    }
}

// The sums over all edges, from 0.0 in index order.
fn gathered(ring: &[f64]) -> Moments
    ensures { result ≡ moments_to ring.now (count ring.now) }
{
    let n = ring.len() / 2;
    let mut m = Moments {
        area: 0.0,
        x: 0.0,
        y: 0.0,
    };
    for i in 0..n {
        m = grown(m, point_at(ring, i), point_at(ring, next(i, n)));
    }
    m
}

// The sum of the vertices, from 0.0 in index order.
fn total(ring: &[f64]) -> Point
    ensures { result ≡ total_to ring.now (count ring.now) }
{
    let n = ring.len() / 2;
    let mut sum = Point { x: 0.0, y: 0.0 };
    for i in 0..n {
        sum = plus(sum, point_at(ring, i));
    }
    sum
}

// The mean of the vertices.
fn mean(ring: &[f64]) -> Point
    ensures { result ≡ mean_of ring.now }
{
    let sum = total(ring);
    let n = std::num::nearest_u64_to_f64((ring.len() / 2) as u64);
    Point {
        x: sum.x / n,
        y: sum.y / n,
    }
}

// The centroid of a polygon.
pub fn centroid(ring: &[f64]) -> Point
    ensures { result ≡ centroid_of ring.now }
{
    let m = gathered(ring);
    if abs(m.area) < 1e-10 {
        return mean(ring);
    }
    let d = 3.0 * m.area;
    Point {
        x: m.x / d,
        y: m.y / d,
    }
}
