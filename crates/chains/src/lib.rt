// Chains of eight neighbouring edges: where a ray passes beside all edges of a chain, one test tells.
#![tactic(auto)]

ghost use Rattle.std.specs.Prelude.{◌≡◌, true, false, cond, ◌+◌, ◌*◌, ◌/◌, ◌<◌, ◌≤◌, T, length};
ghost use Rattle.std.specs.Float.Ieee.{lt, le};
ghost use Rattle.scalar.specs.Float.{f0, f0·5};
ghost use Rattle.ring.specs.Ring.{count};
ghost use Rattle.frames.specs.Frame.{Inside};
ghost use Rattle.chains.specs.Chain.{aside_of, across_of, twice, passes, Bounds, BoundsEdges, chain_at, put_chain, Tabled};

use frames::{Frame, frame_at, higher, with_point};
use plane::Point;
use plane::vector::{cross, minus};
use ring::room::put;
use ring::{next, point_at};

// How many numbers a table of chains has: six for each, of which there are 32 at most.
pub const NUMBERS: usize = 192;

// What bounds a chain for rays of one direction: the corners of its box that lie least and most to the side of a ray, and twice the largest
// denominator of the parameter along an edge.
#[derive(Clone, Copy)]
pub struct Chain {
    pub least: Point,
    pub most: Point,
    pub far: f64,
}

// How far p lies to the side of the ray from origin along dir.
fn aside(origin: Point, dir: Point, p: Point) -> f64
    ensures { result ≡ aside_of origin dir p }
{
    cross(minus(p, origin), dir)
}

// Twice the size of the denominator of the parameter along the edge p q.
fn width(dir: Point, p: Point, q: Point) -> f64
    ensures { result ≡ twice (across_of dir p q) }
{
    let w = scalar::abs(cross(dir, minus(q, p)));
    w + w
}

// The first of two, or the second where x is below zero.
fn by_sign(x: f64, a: f64, b: f64) -> f64
    ensures { result ≡ cond (lt x f0) b a }
{
    if x < 0.0 { b } else { a }
}

// The bounds of edges whose starts are in a frame, and of which none is wider than far.
fn bounds(frame: Frame, dir: Point, far: f64) -> Chain
    ensures { (p q : _) → Inside frame p → lt far (twice (across_of dir p q)) ≡ false → Bounds result dir p q }
{
    Chain {
        least: Point {
            x: by_sign(dir.y, frame.left, frame.right),
            y: by_sign(dir.x, frame.high, frame.low),
        },
        most: Point {
            x: by_sign(dir.y, frame.right, frame.left),
            y: by_sign(dir.x, frame.low, frame.high),
        },
        far,
    }
}

// The bounds of a ring's edges, from one on and below another.
fn chain_of(edges: &[f64], dir: Point, from: usize, to: usize) -> Chain
    requires { (from < to) × (to ≤ count edges.now) }
    ensures { BoundsEdges result dir edges.now from to }
{
    let n = edges.len() / 2;
    let mut p = point_at(edges, from);
    let mut frame = frame_at(p);
    let mut far = 0.0;
    for e in from..to {
        let q = point_at(edges, next(e, n));
        frame = with_point(frame, p);
        far = higher(far, width(dir, p, q));
        p = q;
    }
    bounds(frame, dir, far)
}

// A chain, written to a table as its chain c.
fn put_chain(table: &mut [f64], c: usize, chain: Chain)
    requires { 6 * c + 6 ≤ length table.old }
    ensures { table.new ≡ put_chain table.old c chain }
{
    put(table, 3 * c, chain.least);
    put(table, 3 * c + 1, chain.most);
    let far = Point {
        x: chain.far,
        y: chain.far,
    };
    put(table, 3 * c + 2, far);
}

// Where the chain of the edge e of n ends.
pub fn chain_end(e: usize, n: usize) -> usize
    requires { e < n }
    ensures { (e < result) × (result ≤ n) × (result ≤ 8 * (e / 8) + 8) × (result < n → result ≡ 8 * (e / 8) + 8) }
{
    let rest = 8 - e % 8;
    if n - e > rest { e + rest } else { n }
}

// The chains of a ring's edges, for rays along dir, at the front of the table.
pub fn fill(edges: &[f64], dir: Point, table: &mut [f64])
    requires { (count edges.now ≤ 256) × (192 ≤ length table.old) }
    ensures { Tabled table.new dir edges.now (count edges.now) }
{
    let n = edges.len() / 2;
    for c in 0..n.div_ceil(8) {
        let from = 8 * c;
        put_chain(table, c, chain_of(edges, dir, from, chain_end(from, n)));
    }
}

// Whether the ray from origin along dir passes beside all edges of the chain c.
pub fn is_passed(table: &[f64], c: usize, origin: Point, dir: Point) -> bool
    requires { 6 * c + 6 ≤ length table.now }
    ensures { result ≡ passes (chain_at table.now c) origin dir }
{
    let far = point_at(table, 3 * c + 2);
    if aside(origin, dir, point_at(table, 3 * c)) > far.x {
        return true;
    }
    -aside(origin, dir, point_at(table, 3 * c + 1)) > far.x
}

// Whether n edges have chains that are worth a table, with a tolerance that they serve for.
pub fn is_chained(n: usize, tolerance: f64) -> bool
    ensures { result ≡ true → (n ≤ 256) × T (le tolerance f0·5) }
{
    if n < 16 {
        return false;
    }
    if n > 256 {
        return false;
    }
    tolerance <= 0.5
}
