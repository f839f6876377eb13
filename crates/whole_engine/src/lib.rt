// The segment predicates, the test of a ring and twice its area in whole numbers: coordinates are moved up, so that none is below zero.
#![tactic(auto)]

pub mod calls;
pub mod row;

ghost use Rattle.std.specs.Prelude.{true, not, ◌||◌, ◌≡◌, ◌+◌, ◌/◌, ◌≤◌, ◌<◌, length};
ghost use Rattle.plane.specs.Orientation.{turn_number};
ghost use Rattle.shifted.specs.Shifted.{Small, SmallRing, spot_at, spot_in};
ghost use Rattle.whole_floats.specs.Whole.{difference_of};
ghost use Rattle.whole_rules.specs.Segments.{whole_turn, whole_between, whole_on_segment, whole_touches, whole_intersect};
ghost use Rattle.whole_rules.specs.Simple.{whole_clear_row, whole_simple};
ghost use Rattle.whole_rules.specs.Area.{whole_area2};
ghost use Rattle.whole_engine.specs.Rows.{all_in_bounds};
ghost use Rattle.whole_engine.specs.Sides.{side_of, same_side};

use plane::Orientation;
use ring::next;
use segments::crosses;
use shifted::{Spot, lift, spot_at};
use simple_polygon::adjacent;

// How far x is from a coordinate, and 4,194,304.
fn away(x: u64, from: u64) -> u64
    requires { (x ≤ 2000000) × (from ≤ 2000000) }
    ensures { (result + from ≡ x + 4194304) × (result ≤ 6194304) }
{
    x + 4194304 - from
}

// Which way two such vectors turn, (p, q) and (r, s).
fn side(p: u64, q: u64, r: u64, s: u64) -> Orientation
    requires { (p ≤ 6194304) × (q ≤ 6194304) × (r ≤ 6194304) × (s ≤ 6194304) }
    ensures { turn_number result ≡ side_of p q r s }
{
    let left = p * s + 4194304 * (q + r);
    let right = q * r + 4194304 * (p + s);
    // Two comparisons: by `cmp` the test of a ring took half as long again.
    if right < left {
        Orientation::CounterClockwise
    } else if left < right {
        Orientation::Clockwise
    } else {
        Orientation::Collinear
    }
}

// Which way a, b, c turn.
pub fn turn(a: Spot, b: Spot, c: Spot) -> Orientation
    requires { Small a × Small b × Small c }
    ensures { turn_number result ≡ whole_turn a b c }
{
    let p = away(b.x, a.x);
    let q = away(b.y, a.y);
    let r = away(c.x, a.x);
    let s = away(c.y, a.y);
    side(p, q, r, s)
}

// Whether p lies between a and b.
fn between(a: u64, b: u64, p: u64) -> bool
    ensures { result ≡ whole_between a b p }
{
    if a <= b {
        if a <= p { p <= b } else { false }
    } else if b <= p {
        p <= a
    } else {
        false
    }
}

// Whether p, known to be collinear with the segment a b, lies within its box.
pub fn on_segment(a: Spot, b: Spot, p: Spot) -> bool
    ensures { result ≡ whole_on_segment a b p }
{
    if between(a.x, b.x, p.x) {
        between(a.y, b.y, p.y)
    } else {
        false
    }
}

// Whether p, whose turn with a and b is d, lies on the segment a b.
fn touches(d: Orientation, a: Spot, b: Spot, p: Spot) -> bool
    ensures { result ≡ whole_touches (turn_number d) a b p }
{
    match d {
        Orientation::CounterClockwise => false,
        Orientation::Clockwise => false,
        Orientation::Collinear => on_segment(a, b, p),
    }
}

// Whether the closed segments p1 p2 and p3 p4 meet, by the turns d3 and d4 of p3 and p4 about p1 p2.
fn meet(p1: Spot, p2: Spot, p3: Spot, p4: Spot, d3: Orientation, d4: Orientation) -> bool
    requires small { Small p1 × Small p2 × Small p3 × Small p4 }
    requires d3_value { (turn_number d3 ≡ whole_turn p1 p2 p3) × (turn_number d4 ≡ whole_turn p1 p2 p4) }
    ensures { result ≡ whole_intersect p1 p2 p3 p4 }
{
    let d1 = turn(p3, p4, p1);
    let d2 = turn(p3, p4, p2);
    if crosses(d1, d2, d3, d4) {
        return true;
    }
    if touches(d1, p3, p4, p1) {
        return true;
    }
    if touches(d2, p3, p4, p2) {
        return true;
    }
    if touches(d3, p1, p2, p3) {
        return true;
    }
    touches(d4, p1, p2, p4)
}

// Whether the closed segments p1 p2 and p3 p4 meet.
pub fn segments_intersect(p1: Spot, p2: Spot, p3: Spot, p4: Spot) -> bool
    requires { Small p1 × Small p2 × Small p3 × Small p4 }
    ensures { result ≡ whole_intersect p1 p2 p3 p4 }
{
    let d3 = turn(p1, p2, p3);
    let d4 = turn(p1, p2, p4);
    meet(p1, p2, p3, p4, d3, d4)
}

// Whether two turns are both counter-clockwise or both clockwise.
fn same_side(d: Orientation, e: Orientation) -> bool
    ensures { result ≡ same_side (turn_number d) (turn_number e) }
{
    match d {
        Orientation::CounterClockwise => match e {
            Orientation::CounterClockwise => true,
            Orientation::Clockwise => false,
            Orientation::Collinear => false,
        },
        Orientation::Clockwise => match e {
            Orientation::CounterClockwise => false,
            Orientation::Clockwise => true,
            Orientation::Collinear => false,
        },
        Orientation::Collinear => false,
    }
}

// Whether two edges share a vertex, as is told, or do not meet: an edge that lies on one side of the other does not.
fn clear_pair(
    shared: bool,
    a1: Spot,
    a2: Spot,
    b1: Spot,
    b2: Spot,
    d3: Orientation,
    d4: Orientation,
) -> bool
    requires small { Small a1 × Small a2 × Small b1 × Small b2 }
    requires d3_value { (turn_number d3 ≡ whole_turn a1 a2 b1) × (turn_number d4 ≡ whole_turn a1 a2 b2) }
    ensures { result ≡ (shared || not (whole_intersect a1 a2 b1 b2)) }
{
    if shared {
        return true;
    }
    if same_side(d3, d4) {
        return true;
    }
    !meet(a1, a2, b1, b2, d3, d4)
}

// Whether the edge i is clear of each later one.
fn clear_row(list: &[u64], i: usize) -> bool
    requires { (i < length list.now / 2) × SmallRing list.now }
    ensures { result ≡ whole_clear_row (spot_at list.now) (length list.now / 2) i }
{
    let n = list.len() / 2;
    let a1 = spot_at(list, i);
    let a2 = spot_at(list, next(i, n));
    let mut b1 = a2;
    let mut d3 = turn(a1, a2, b1);
    for j in i + 1..n {
        let b2 = spot_at(list, next(j, n));
        let d4 = turn(a1, a2, b2);
        if !clear_pair(adjacent(i, j, n), a1, a2, b1, b2, d3, d4) {
            return false;
        }
        b1 = b2;
        d3 = d4;
    }
    true
}

// Whether the ring of a list that is moved up has no two edges that meet but those that share a vertex.
fn is_simple(list: &[u64]) -> bool
    requires { SmallRing list.now }
    ensures { result ≡ whole_simple (spot_at list.now) (length list.now / 2) }
{
    let n = list.len() / 2;
    if n < 3 {
        return false;
    }
    for i in 0..n {
        if !clear_row(list, i) {
            return false;
        }
    }
    true
}

// Whether a ring of three vertices or more has no two edges that meet but those that share a vertex.
fn is_simple_polygon(ring: &[i32]) -> bool
    requires { (length ring.now ≤ 512) × (all_in_bounds ring.now ≡ true) }
    ensures { result ≡ whole_simple (spot_in ring.now) (length ring.now / 2) }
{
    let mut room = [0u64; 512];
    lift(ring, &mut room);
    is_simple(&room[..ring.len()])
}

// a less b.
fn difference(a: u64, b: u64) -> i64
    requires { (a ≤ 1000000000000000000) × (b ≤ 1000000000000000000) }
    ensures { result ≡ difference_of a b }
{
    a as i64 - b as i64
}

// Twice the area of the ring of a list that is moved up: what counts for the left less what counts for the right.
fn area2(list: &[u64]) -> i64
    requires { (length list.now ≤ 512) × SmallRing list.now }
    ensures { result ≡ whole_area2 (spot_at list.now) (length list.now / 2) }
{
    let n = list.len() / 2;
    let mut left = 0;
    let mut right = 0;
    for i in 0..n {
        let p = spot_at(list, i);
        let q = spot_at(list, next(i, n));
        left += p.x * q.y;
        right += q.x * p.y;
    }
    difference(left, right)
}

// Twice the signed area.
fn signed_area2(ring: &[i32]) -> i64
    requires { (length ring.now ≤ 512) × (all_in_bounds ring.now ≡ true) }
    ensures { result ≡ whole_area2 (spot_in ring.now) (length ring.now / 2) }
{
    let mut room = [0u64; 512];
    lift(ring, &mut room);
    area2(&room[..ring.len()])
}
