// What a move runs into: rays against segments, the scan of both kinds of pair, the nearest hit: `check_translation_collision` of
// `nfp_sliding.rs`.
#![tactic(auto)]

pub mod calls;

ghost use Rattle.std.specs.Prelude.{◌≡◌, ◌&&◌, ◌≤◌, ◌<◌};
ghost use Rattle.std.specs.Float.Ieee.{lt};
ghost use Rattle.scalar.specs.Scalar.{abs_of};
ghost use Rattle.ring.specs.Ring.{count};
ghost use Rattle.collision.specs.Ray.{ray_of, edge_ray};
ghost use Rattle.collision.specs.Parts.{within_segment, in_front, pair_by};
ghost use Rattle.collision.specs.Row.{pair_at, least_of, Onward};
ghost use Rattle.collision.specs.Hit.{counted_of};
ghost use Rattle.collision.specs.Chained.{Few, Ready};
ghost use Rattle.collision.specs.Check.{scan_of, back_of, both_of, rays_by, collision_of};

use chains::{NUMBERS, chain_end, fill, is_chained, is_passed};
use plane::Point;
use plane::vector::{cross, length, minus};
use ring::{next, point_at};

// What a move runs into, and how far off it is. Kind 0 is a vertex of orbiting on an edge of stationary, kind 1 a vertex of stationary on
// an edge of orbiting.
#[derive(Clone, Copy)]
pub struct Hit {
    pub distance: f64,
    pub kind: u8,
    pub stationary: usize,
    pub orbiting: usize,
}

// A sweep of rays: their direction, the distance below which a hit counts, and the tolerance above which it does.
#[derive(Clone, Copy)]
pub struct Sweep {
    pub dir: Point,
    pub limit: f64,
    pub tolerance: f64,
}

// Whether the parameter along the segment is within the tolerance.
fn within_segment(u: f64, tolerance: f64) -> bool
    ensures { result ≡ within_segment u tolerance }
{
    if u >= -tolerance {
        u <= 1.0 + tolerance
    } else {
        false
    }
}

// The answer by the parameter along the ray, where the other is within the tolerance.
fn in_front(t: f64, tolerance: f64) -> Option<f64>
    ensures { result ≡ in_front t tolerance }
{
    if t >= -tolerance {
        Some(scalar::larger(t, 0.0))
    } else {
        None
    }
}

// Whether the size of x is below the tolerance.
fn is_small(x: f64, tolerance: f64) -> bool
    ensures { result ≡ lt (abs_of x) tolerance }
{
    if x < tolerance { -x < tolerance } else { false }
}

// How far along the ray from origin it meets the segment p1 p2, or nothing where it misses.
pub fn ray_segment_intersection(
    origin: Point,
    dir: Point,
    p1: Point,
    p2: Point,
    tolerance: f64,
) -> Option<f64>
    ensures { result ≡ ray_of origin dir p1 p2 tolerance }
{
    let seg = minus(p2, p1);
    let den = cross(dir, seg);
    let diff = minus(p1, origin);
    if within_segment(cross(diff, dir) / den, tolerance) {
        if is_small(den, tolerance) {
            return None;
        }
        in_front(cross(diff, seg) / den, tolerance)
    } else {
        None
    }
}

// The ray from origin against the edge e of a ring.
pub fn edge_ray(origin: Point, dir: Point, ring: &[f64], e: usize, tolerance: f64) -> Option<f64>
    requires { e < count ring.now }
    ensures { result ≡ edge_ray origin dir ring.now e tolerance }
{
    let p1 = point_at(ring, e);
    let p2 = point_at(ring, next(e, ring.len() / 2));
    ray_segment_intersection(origin, dir, p1, p2, tolerance)
}

// A ray's hit where it counts: above the tolerance and below the limit.
fn counted(
    ray: Option<f64>,
    sweep: Sweep,
    kind: u8,
    stationary: usize,
    orbiting: usize,
) -> Option<Hit>
    ensures { result ≡ counted_of ray sweep kind stationary orbiting }
{
    let Some(distance) = ray else {
        return None;
    };
    if distance > sweep.tolerance {
        if distance < sweep.limit {
            return Some(Hit {
                distance,
                kind,
                stationary,
                orbiting,
            });
        }
    }
    None
}

// What a ray of the vertex v of one ring makes of the edge e of the other.
pub fn pair(ray: Option<f64>, sweep: Sweep, kind: u8, v: usize, e: usize) -> Option<Hit>
    ensures { result ≡ pair_by ray sweep kind v e }
{
    if kind == 0 {
        counted(ray, sweep, 0, e, v)
    } else {
        counted(ray, sweep, 1, v, e)
    }
}

// The distance below which a hit is nearer than what was found: +infinity where that is nothing.
#[tactic(auto, unfolding(crate::specs::Row::least_of))]
fn least(best: Option<Hit>) -> f64
    ensures { result ≡ least_of best }
{
    match best {
        Some(hit) => hit.distance,
        None => 1.0 / 0.0,
    }
}

// Whether a hit at d counts and lies below a distance.
fn counts_below(d: f64, sweep: Sweep, near: f64) -> bool
    ensures { result ≡ lt sweep.tolerance d && (lt d near && lt d sweep.limit) }
{
    if d > sweep.tolerance {
        if d < near {
            return d < sweep.limit;
        }
    }
    false
}

// What was found before, or the first nearest hit of the vertex v, at origin, on the edges from one on and below another.
fn row(
    origin: Point,
    edges: &[f64],
    sweep: Sweep,
    kind: u8,
    v: usize,
    before: Option<Hit>,
    from: usize,
    to: usize,
) -> Option<Hit>
    requires { (from ≤ to) × (to ≤ count edges.now) }
    ensures { Onward (pair_at origin edges.now sweep kind v) from to before result }
{
    let mut best = before;
    let mut near = least(before);
    for e in from..to {
        let ray = edge_ray(origin, sweep.dir, edges, e, sweep.tolerance);
        if let Some(d) = ray {
            if counts_below(d, sweep, near) {
                best = pair(ray, sweep, kind, v, e);
                near = d;
            }
        }
    }
    best
}

// The same on all edges, with a table of their chains, so that those that the ray passes beside are left out.
fn chained_row(
    origin: Point,
    edges: &[f64],
    table: &[f64],
    sweep: Sweep,
    kind: u8,
    v: usize,
    before: Option<Hit>,
) -> Option<Hit>
    requires { Ready table.now edges.now sweep }
    ensures { Onward (pair_at origin edges.now sweep kind v) 0 (count edges.now) before result }
{
    let m = edges.len() / 2;
    let mut best = before;
    for c in 0..m.div_ceil(8) {
        if !is_passed(table, c, origin, sweep.dir) {
            let from = 8 * c;
            let to = chain_end(from, m);
            best = row(origin, edges, sweep, kind, v, best, from, to);
        }
    }
    best
}

// Each vertex of one ring against each edge of the other, from what was found before, with a table of the edges' chains.
fn rows_by(
    vertices: &[f64],
    edges: &[f64],
    table: &[f64],
    sweep: Sweep,
    kind: u8,
    before: Option<Hit>,
) -> Option<Hit>
    requires { Ready table.now edges.now sweep }
    ensures { result ≡ scan_of vertices.now edges.now sweep kind before }
{
    let n = vertices.len() / 2;
    let mut best = before;
    for v in 0..n {
        let origin = point_at(vertices, v);
        best = chained_row(origin, edges, table, sweep, kind, v, best);
    }
    best
}

// The same, with the table made.
fn chained_scan(
    vertices: &[f64],
    edges: &[f64],
    sweep: Sweep,
    kind: u8,
    before: Option<Hit>,
) -> Option<Hit>
    requires { Few edges.now sweep }
    ensures { result ≡ scan_of vertices.now edges.now sweep kind before }
{
    let mut table = [0.0; NUMBERS];
    fill(edges, sweep.dir, &mut table);
    rows_by(vertices, edges, &table, sweep, kind, before)
}

// The same, each edge tried.
fn plain_scan(
    vertices: &[f64],
    edges: &[f64],
    sweep: Sweep,
    kind: u8,
    before: Option<Hit>,
) -> Option<Hit>
    ensures { result ≡ scan_of vertices.now edges.now sweep kind before }
{
    let n = vertices.len() / 2;
    let m = edges.len() / 2;
    let mut best = before;
    for v in 0..n {
        let origin = point_at(vertices, v);
        best = row(origin, edges, sweep, kind, v, best, 0, m);
    }
    best
}

// Each vertex of one ring against each edge of the other, from what was found before.
fn scan(vertices: &[f64], edges: &[f64], sweep: Sweep, kind: u8, before: Option<Hit>) -> Option<Hit>
    ensures { result ≡ scan_of vertices.now edges.now sweep kind before }
{
    if is_chained(edges.len() / 2, sweep.tolerance) {
        chained_scan(vertices, edges, sweep, kind, before)
    } else {
        plain_scan(vertices, edges, sweep, kind, before)
    }
}

// The same sweep the other way.
pub fn back(sweep: Sweep) -> Sweep
    ensures { result ≡ back_of sweep }
{
    let dir = Point {
        x: -sweep.dir.x,
        y: -sweep.dir.y,
    };
    Sweep {
        dir,
        limit: sweep.limit,
        tolerance: sweep.tolerance,
    }
}

// Both kinds of pair: orbiting vertices first, and then stationary vertices, which come the other way.
fn both(stationary: &[f64], orbiting: &[f64], sweep: Sweep) -> Option<Hit>
    ensures { result ≡ both_of stationary.now orbiting.now sweep }
{
    let against = back(sweep);
    let best = scan(orbiting, stationary, sweep, 0, None);
    scan(stationary, orbiting, against, 1, best)
}

// The rays of a move with its length: its direction, and the limit, its length less the tolerance.
pub fn rays(translation: Point, len: f64, tolerance: f64) -> Sweep
    ensures { result ≡ rays_by translation len tolerance }
{
    let dir = Point {
        x: translation.x / len,
        y: translation.y / len,
    };
    Sweep {
        dir,
        limit: len - tolerance,
        tolerance,
    }
}

// What orbiting, moved by translation, runs into first.
pub fn check_translation_collision(
    stationary: &[f64],
    orbiting: &[f64],
    translation: Point,
    tolerance: f64,
) -> Option<Hit>
    ensures { result ≡ collision_of stationary.now orbiting.now translation tolerance }
{
    let len = length(translation);
    if len < tolerance {
        return None;
    }
    both(stationary, orbiting, rays(translation, len, tolerance))
}
