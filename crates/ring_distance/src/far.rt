// Bounds of neighbouring edges: where these lie farther off from a point than the least distance so far, one test tells.
ghost use Rattle.std.specs.Prelude.{◌≡◌, true, ◌+◌, ◌*◌, ◌<◌, ◌≤◌, length};
ghost use Rattle.ring.specs.Ring.{count};
ghost use Rattle.ring_distance.specs.Far.{BoundsEdges, gap_of, NoneNearer, frame_in, put_frame, bounds_at, put_bounds, Tabled, Ready};

use chains::chain_end;
use frames::{Frame, frame_at, higher, with_point};
use plane::Point;
use plane::vector::minus;
use ring::room::put;
use ring::{next, point_at};

// How many numbers a table of bounds has: eight for each of at most 32 chains, and eight for all edges.
pub const NUMBERS: usize = 264;

// What bounds some edges: a frame around their starts, and one around their ways from start to end, with no way at all in it.
#[derive(Clone, Copy)]
pub struct Bounds {
    pub starts: Frame,
    pub ways: Frame,
}

// The bounds of a ring's edges, from one on and below another.
fn bounds_of(ring: &[f64], from: usize, to: usize) -> Bounds
    requires { (from < to) × (to ≤ count ring.now) }
    ensures { BoundsEdges result ring.now from to }
{
    let n = ring.len() / 2;
    let mut a = point_at(ring, from);
    let mut starts = frame_at(a);
    let mut ways = frame_at(Point { x: 0.0, y: 0.0 });
    for e in from..to {
        let b = point_at(ring, next(e, n));
        starts = with_point(starts, a);
        ways = with_point(ways, minus(b, a));
        a = b;
    }
    Bounds { starts, ways }
}

// The square of what p lies off, along one axis and at least, from edges with starts from low to high and ways from least to most.
fn gap(p: f64, low: f64, high: f64, least: f64, most: f64) -> f64
    ensures { result ≡ gap_of p low high least most }
{
    let g = higher(higher(0.0, p - high - most), -(p - low - least));
    g * g
}

// Whether no edge in the bounds is nearer to p than the root of least.
fn is_off(w: Bounds, p: Point, least: f64) -> bool
    ensures { result ≡ true → NoneNearer w p least }
{
    let x = gap(
        p.x,
        w.starts.left,
        w.starts.right,
        w.ways.left,
        w.ways.right,
    );
    let y = gap(p.y, w.starts.low, w.starts.high, w.ways.low, w.ways.high);
    least <= x + y
}

// A frame, written to a table as its frame i.
fn put_frame(table: &mut [f64], i: usize, frame: Frame)
    requires { 4 * i + 4 ≤ length table.old }
    ensures { table.new ≡ put_frame table.old i frame }
{
    let near = Point {
        x: frame.left,
        y: frame.low,
    };
    let far = Point {
        x: frame.right,
        y: frame.high,
    };
    put(table, 2 * i, near);
    put(table, 2 * i + 1, far);
}

// The frame i of a table.
fn frame_in(table: &[f64], i: usize) -> Frame
    requires { 4 * i + 4 ≤ length table.now }
    ensures { result ≡ frame_in table.now i }
{
    let near = point_at(table, 2 * i);
    let far = point_at(table, 2 * i + 1);
    Frame {
        left: near.x,
        right: far.x,
        low: near.y,
        high: far.y,
    }
}

// Bounds, written to a table as those of its chain c.
fn put_bounds(table: &mut [f64], c: usize, w: Bounds)
    requires { 8 * c + 8 ≤ length table.old }
    ensures { table.new ≡ put_bounds table.old c w }
{
    put_frame(table, 2 * c, w.starts);
    put_frame(table, 2 * c + 1, w.ways);
}

// Whether no edge of the chain c is nearer to p than the root of least.
pub fn is_far(table: &[f64], c: usize, p: Point, least: f64) -> bool
    requires { 8 * c + 8 ≤ length table.now }
    ensures { result ≡ true → NoneNearer (bounds_at table.now c) p least }
{
    let w = Bounds {
        starts: frame_in(table, 2 * c),
        ways: frame_in(table, 2 * c + 1),
    };
    is_off(w, p, least)
}

// The bounds of each chain of a ring's edges, at the front of the table.
fn fill_chains(ring: &[f64], table: &mut [f64])
    requires { (count ring.now ≤ 256) × (256 ≤ length table.old) }
    ensures { Tabled table.new ring.now (count ring.now) }
{
    let n = ring.len() / 2;
    for c in 0..n.div_ceil(8) {
        let from = 8 * c;
        put_bounds(table, c, bounds_of(ring, from, chain_end(from, n)));
    }
}

// The same, and then the bounds of all edges.
pub fn fill(ring: &[f64], table: &mut [f64])
    requires { (0 < count ring.now) × (count ring.now ≤ 256) × (264 ≤ length table.old) }
    ensures { Ready table.new ring.now }
{
    fill_chains(ring, table);
    put_bounds(table, 32, bounds_of(ring, 0, ring.len() / 2));
}

// Whether for m points the bounds of n edges are worth a table, and fit.
pub fn is_chained(m: usize, n: usize) -> bool
    ensures { result ≡ true → (0 < n) × (n ≤ 256) }
{
    if m < 3 {
        return false;
    }
    if n < 16 {
        return false;
    }
    n <= 256
}
