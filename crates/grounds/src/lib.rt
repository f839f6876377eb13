// Why a move is clear, or what it runs into: the collision check's answer with its ground, and the counts of all computed hits. One scan of
// the rule's pairs.
#![tactic(auto)]

pub mod calls;

ghost use Rattle.std.specs.Prelude.{◌≡◌, ◌+◌, ◌*◌, ◌<◌, ◌≤◌, cond, length};
ghost use Rattle.ring.specs.Ring.{count};
ghost use Rattle.refusals.specs.Rings.{vertices_most};
ghost use Rattle.grounds.specs.Classes.{in_between, too_far};
ghost use Rattle.grounds.specs.Grounds.{ground_by, ground_number};
ghost use Rattle.collision.specs.Hit.{nearer};
ghost use Rattle.collision.specs.Chained.{Few, Ready};
ghost use Rattle.grounds.specs.Met.{MetFirst};
ghost use Rattle.grounds.specs.Scan.{kind_most, pairs_most, AtMost, no_tally, others_after, scan_noted, both_noted};
ghost use Rattle.grounds.specs.Explanation.{explanation_of};

use chains::{NUMBERS, chain_end, fill, is_chained, is_passed};
use collision::{Hit, Sweep, back, edge_ray, pair, rays};
use plane::Point;
use plane::vector::length;
use ring::point_at;

// Why the answer is what it is: a hit; or the move is shorter than the tolerance, no pair is ever hit, all hits are too near, all are too
// far, or there are hits on both sides and none between.
#[derive(Clone, Copy)]
pub enum Ground {
    Hit,
    Short,
    Never,
    Near,
    Far,
    BothSides,
}

// An edge that a ray meets, and how far along the ray.
#[derive(Clone, Copy)]
struct Met {
    edge: usize,
    distance: f64,
}

// What is known of the pairs scanned: the nearest hit that counts, how many other pairs have its very distance, and how many hits are too
// near, between and too far.
#[derive(Clone, Copy)]
pub struct Tally {
    pub best: Option<Hit>,
    pub others: u64,
    pub near: u64,
    pub between: u64,
    pub far: u64,
}

// The ground, and what is known of all pairs.
#[derive(Clone, Copy)]
pub struct Explanation {
    pub ground: Ground,
    pub tally: Tally,
}

impl Ground {
    // 0 for a hit, and 1 to 5 for the grounds of nothing.
    pub fn number(self) -> u32
        ensures { result ≡ ground_number self }
    {
        match self {
            Ground::Hit => 0,
            Ground::Short => 1,
            Ground::Never => 2,
            Ground::Near => 3,
            Ground::Far => 4,
            Ground::BothSides => 5,
        }
    }
}

// What is known before the first pair.
fn no_tally() -> Tally
    ensures { result ≡ no_tally }
{
    Tally {
        best: None,
        others: 0,
        near: 0,
        between: 0,
        far: 0,
    }
}

// Whether a distance lies strictly between the tolerance and the limit.
fn in_between(distance: f64, sweep: Sweep) -> bool
    ensures { result ≡ in_between sweep distance }
{
    if distance > sweep.tolerance {
        distance < sweep.limit
    } else {
        false
    }
}

// Whether a distance is not too near and at least the limit.
fn too_far(distance: f64, sweep: Sweep) -> bool
    ensures { result ≡ too_far sweep distance }
{
    if distance <= sweep.tolerance {
        false
    } else {
        distance >= sweep.limit
    }
}

// One more, where a test passed.
fn one_more(count: u64, passes: bool) -> u64
    requires { count ≤ 2 * pairs_most }
    ensures { result ≡ count + cond passes 1 0 }
{
    if passes { count + 1 } else { count }
}

// The others at the nearest distance, after a new one.
#[tactic(auto, unfolding(crate::specs::Scan::others_after))]
fn others_after(others: u64, best: Option<Hit>, new: Option<Hit>) -> u64
    requires { others ≤ 2 * pairs_most }
    ensures { result ≡ others_after others best new }
{
    let Some(new) = new else {
        return others;
    };
    let Some(best) = best else {
        return 0;
    };
    if new.distance < best.distance {
        0
    } else {
        one_more(others, new.distance == best.distance)
    }
}

// Whether a new one replaces what was found so far: only a strictly smaller distance does.
#[tactic(auto, unfolding(collision::specs::Hit::nearer))]
fn is_nearer(new: Option<Hit>, best: Option<Hit>) -> bool
    ensures { result ≡ nearer new best }
{
    let Some(new) = new else {
        return false;
    };
    let Some(best) = best else {
        return true;
    };
    new.distance < best.distance
}

// The first edge from one on and below another that the ray from origin does not miss.
fn first_hit(origin: Point, edges: &[f64], sweep: Sweep, from: usize, to: usize) -> Option<Met>
    requires { (from ≤ to) × (to ≤ count edges.now) }
    ensures { MetFirst edges.now sweep.dir sweep.tolerance origin from to result }
{
    for e in from..to {
        if let Some(distance) = edge_ray(origin, sweep.dir, edges, e, sweep.tolerance) {
            return Some(Met { edge: e, distance });
        }
    }
    None
}

// The first edge from one on that the ray from origin does not miss. The table has the chains of all edges, so that those that the ray
// passes beside are left out, or it is empty.
fn next_hit(origin: Point, edges: &[f64], table: &[f64], sweep: Sweep, from: usize) -> Option<Met>
    requires from_bound { from ≤ count edges.now }
    requires ready { 0 < length table.now → Ready table.now edges.now sweep }
    ensures { MetFirst edges.now sweep.dir sweep.tolerance origin from (count edges.now) result }
{
    let n = edges.len() / 2;
    if table.len() == 0 {
        return first_hit(origin, edges, sweep, from, n);
    }
    let mut e = from;
    // A while: the first chain may begin within a block of eight, and the last may end within one.
    while e < n {
        let to = chain_end(e, n);
        if !is_passed(table, e / 8, origin, sweep.dir) {
            if let Some(met) = first_hit(origin, edges, sweep, e, to) {
                return Some(met);
            }
        }
        e = to;
    }
    None
}

// Each vertex of one ring against each edge of the other, from what was known before, with a table of the edges' chains or an
// empty one.
fn scan_by(
    vertices: &[f64],
    edges: &[f64],
    table: &[f64],
    sweep: Sweep,
    kind: u8,
    before: Tally,
) -> Tally
    requires vertices_bound { (count vertices.now ≤ vertices_most) × (count edges.now ≤ vertices_most) × AtMost before kind_most }
    requires ready { 0 < length table.now → Ready table.now edges.now sweep }
    ensures { result ≡ scan_noted vertices.now edges.now sweep kind before }
{
    let mut best = before.best;
    let mut others = before.others;
    let mut near = before.near;
    let mut between = before.between;
    let mut far = before.far;
    for v in 0..vertices.len() / 2 {
        let origin = point_at(vertices, v);
        let mut e = 0;
        while let Some(met) = next_hit(origin, edges, table, sweep, e) {
            let d = met.distance;
            let new = pair(Some(d), sweep, kind, v, met.edge);
            others = others_after(others, best, new);
            near = one_more(near, d <= sweep.tolerance);
            between = one_more(between, in_between(d, sweep));
            far = one_more(far, too_far(d, sweep));
            if is_nearer(new, best) {
                best = new;
            }
            e = met.edge + 1;
        }
    }
    Tally {
        best,
        others,
        near,
        between,
        far,
    }
}

// The same with a table of the edges' chains.
fn chained_scan(vertices: &[f64], edges: &[f64], sweep: Sweep, kind: u8, before: Tally) -> Tally
    requires { (count vertices.now ≤ vertices_most) × Few edges.now sweep × AtMost before kind_most }
    ensures { result ≡ scan_noted vertices.now edges.now sweep kind before }
{
    let mut table = [0.0; NUMBERS];
    fill(edges, sweep.dir, &mut table);
    scan_by(vertices, edges, &table, sweep, kind, before)
}

// Each vertex of one ring against each edge of the other, from what was known before.
fn scan(vertices: &[f64], edges: &[f64], sweep: Sweep, kind: u8, before: Tally) -> Tally
    requires { (count vertices.now ≤ vertices_most) × (count edges.now ≤ vertices_most) × AtMost before kind_most }
    ensures { result ≡ scan_noted vertices.now edges.now sweep kind before }
{
    if is_chained(edges.len() / 2, sweep.tolerance) {
        chained_scan(vertices, edges, sweep, kind, before)
    } else {
        scan_by(vertices, edges, &edges[..0], sweep, kind, before)
    }
}

// Both kinds of pair: orbiting vertices first, and then stationary vertices, which come the other way.
fn both(stationary: &[f64], orbiting: &[f64], sweep: Sweep) -> Tally
    requires { (count stationary.now ≤ vertices_most) × (count orbiting.now ≤ vertices_most) }
    ensures { result ≡ both_noted stationary.now orbiting.now sweep }
{
    let against = back(sweep);
    let tally = scan(orbiting, stationary, sweep, 0, no_tally());
    scan(stationary, orbiting, against, 1, tally)
}

// The ground of a move that is scanned, by the hits too near, between and too far.
fn ground_by(near: u64, between: u64, far: u64) -> Ground
    ensures { result ≡ ground_by near between far }
{
    if between == 0 {
        if near == 0 {
            if far == 0 { Ground::Never } else { Ground::Far }
        } else {
            if far == 0 {
                Ground::Near
            } else {
                Ground::BothSides
            }
        }
    } else {
        Ground::Hit
    }
}

// What orbiting, moved by translation, runs into first, or why into nothing, with the counts of all hits.
pub fn explain_collision(
    stationary: &[f64],
    orbiting: &[f64],
    translation: Point,
    tolerance: f64,
) -> Explanation
    requires { (count stationary.now ≤ vertices_most) × (count orbiting.now ≤ vertices_most) }
    ensures { result ≡ explanation_of stationary.now orbiting.now translation tolerance }
{
    let len = length(translation);
    if len < tolerance {
        return Explanation {
            ground: Ground::Short,
            tally: no_tally(),
        };
    }
    let tally = both(stationary, orbiting, rays(translation, len, tolerance));
    Explanation {
        ground: ground_by(tally.near, tally.between, tally.far),
        tally,
    }
}
