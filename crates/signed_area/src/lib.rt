// The signed area of a ring: `signed_area2` of `polygon_ops.rs`, twice the area, and `signed_area_robust` of `robust.rs`, the area by a compensated sum.
#![tactic(auto)]

pub mod calls;

ghost use Rattle.std.specs.Prelude.{◌≡◌, ◌<◌};
ghost use Rattle.ring.specs.Ring.{count};
ghost use Rattle.signed_area.specs.Area.{term_of, area2_of, added_of, robust_of};

use ring::{next, point_at};

// Twice the area between the origin and the edge from vertex i.
fn term(ring: &[f64], i: usize) -> f64
    requires { i < count ring.now }
    ensures { result ≡ term_of ring.now i }
{
    let p = point_at(ring, i);
    let q = point_at(ring, next(i, ring.len() / 2));
    p.x * q.y - q.x * p.y
}

// Twice the signed area: the sum of the terms from 0.0, in index order.
fn signed_area2(ring: &[f64]) -> f64
    ensures { result ≡ area2_of ring.now }
{
    let n = ring.len() / 2;
    let mut sum = 0.0;
    for i in 0..n {
        sum = sum + term(ring, i);
    }
    sum
}

// A compensated sum: the sum, and what rounding has added to it.
#[derive(Clone, Copy)]
pub struct Kahan {
    pub sum: f64,
    pub c: f64,
}

// The sum with one term more.
fn added(k: Kahan, term: f64) -> Kahan
    ensures { result ≡ added_of k term }
{
    let y = term - k.c;
    let t = k.sum + y;
    Kahan {
        sum: t,
        c: t - k.sum - y,
    }
}

// The signed area, 0.0 below three vertices.
fn signed_area_robust(ring: &[f64]) -> f64
    ensures { result ≡ robust_of ring.now }
{
    let n = ring.len() / 2;
    if n < 3 {
        return 0.0;
    }
    let mut k = Kahan { sum: 0.0, c: 0.0 };
    for i in 0..n {
        k = added(k, term(ring, i));
    }
    k.sum / 2.0
}
