// The check of a reason that is lent: whether each of its lines parts its edge from the way, and then the balance. All numbers
// are moved up, so that none is below zero.
#![tactic(auto)]

ghost use Rattle.std.specs.Prelude.{◌≡◌, ◌*◌, ◌/◌, ◌≤◌, ◌<◌, min, length};
ghost use Rattle.shifted.specs.Shifted.{Small, spot_at};
ghost use Rattle.reasons.specs.Reason.{mark};
ghost use Rattle.reasons.specs.Parting.{left_sum, left_on, right_on, way_left, edge_right, differ, parts};
ghost use Rattle.reasons.specs.Lowest.{lowest};
ghost use Rattle.reasons.specs.Check.{balance_at, parts_at, check_of};
ghost use Rattle.reason_check.specs.Lent.{WayLent, ReasonLent};
ghost use Rattle.reason_check.specs.Told.{ground};

use ring::next;
use shifted::{Spot, spot_at};

// What is found: the reason holds; this edge is the first that is not parted; all are, and the way is enclosed.
#[derive(Clone, Copy, Debug, PartialEq, Eq)]
pub enum Ground {
    Clear,
    Edge(usize),
    Enclosed,
}

// What counts for the left of the line from p to q; for its right, what counts for the left of the line from q to p.
fn left_sum(p: Spot, q: Spot, v: Spot) -> u64
    requires { Small p × Small q × Small v }
    ensures { result ≡ left_sum p q v }
{
    q.x * v.y + p.y * v.x + p.x * q.y
}

// Whether v is left of the line from p to q, or on it.
fn left_on(p: Spot, q: Spot, v: Spot) -> bool
    requires { Small p × Small q × Small v }
    ensures { result ≡ left_on p q v }
{
    left_sum(q, p, v) <= left_sum(p, q, v)
}

// Whether v is right of it, or on it.
fn right_on(p: Spot, q: Spot, v: Spot) -> bool
    requires { Small p × Small q × Small v }
    ensures { result ≡ right_on p q v }
{
    left_on(q, p, v)
}

// Whether p and q are two points.
pub fn differ(p: Spot, q: Spot) -> bool
    ensures { result ≡ differ p q }
{
    p != q
}

// Whether the whole way is left of the line from p to q, or on it.
pub fn way_left(a: &[u64], b: &[u64], p: Spot, q: Spot) -> bool
    requires { WayLent a.now b.now × Small p × Small q }
    ensures { result ≡ way_left (spot_at a.now) (spot_at b.now) (length a.now / 2) p q }
{
    let n = a.len() / 2;
    for i in 0..n {
        if !left_on(p, q, spot_at(a, i)) {
            return false;
        }
        if !left_on(p, q, spot_at(b, i)) {
            return false;
        }
    }
    true
}

// Whether the edge from s to t is right of the line from p to q, or on it.
pub fn edge_right(p: Spot, q: Spot, s: Spot, t: Spot) -> bool
    requires { Small p × Small q × Small s × Small t }
    ensures { result ≡ edge_right p q s t }
{
    if right_on(p, q, s) {
        right_on(p, q, t)
    } else {
        false
    }
}

// Whether the line from p to q parts the edge from s to t from the way. The edge is looked at first, since that is less work.
pub fn parts(a: &[u64], b: &[u64], s: Spot, t: Spot, p: Spot, q: Spot) -> bool
    requires { WayLent a.now b.now × Small s × Small t × Small p × Small q }
    ensures { result ≡ parts (spot_at a.now) (spot_at b.now) (length a.now / 2) s t p q }
{
    if !differ(p, q) {
        return false;
    }
    if !edge_right(p, q, s, t) {
        return false;
    }
    way_left(a, b, p, q)
}

// The smaller of two numbers.
pub fn smaller(x: u64, y: u64) -> u64
    ensures { result ≡ min x y }
{
    x.min(y)
}

// The least height of the way's corners, at the start and at the end.
pub fn lowest(a: &[u64], b: &[u64]) -> u64
    requires { (0 < length a.now / 2) × (length b.now ≡ length a.now) }
    ensures { result ≡ lowest (spot_at a.now) (spot_at b.now) (length a.now / 2) }
{
    let n = a.len() / 2;
    let mut low = a[1];
    for i in 0..n {
        low = smaller(smaller(low, a[2 * i + 1]), b[2 * i + 1]);
    }
    low
}

// 1 where the line from p to q rises and the edge from s to t comes up through the height h.
fn mark(h: u64, p: Spot, q: Spot, s: Spot, t: Spot) -> u64
    ensures { (result ≡ mark h p q s t) × (result ≤ 1) }
{
    if p.y >= q.y {
        return 0;
    }
    if s.y > h {
        return 0;
    }
    if t.y > h { 1 } else { 0 }
}

// Whether as many edges come up through the height h as go down, where their lines rise.
pub fn balanced(st: &[u64], ls: &[u64], h: u64) -> bool
    requires { 4 * (length st.now / 2) ≤ length ls.now }
    ensures { result ≡ balance_at st.now ls.now h }
{
    let m = st.len() / 2;
    let mut up = 0;
    let mut down = 0;
    for j in 0..m {
        let p = spot_at(ls, 2 * j);
        let q = spot_at(ls, 2 * j + 1);
        let s = spot_at(st, j);
        let t = spot_at(st, next(j, m));
        up += mark(h, p, q, s, t);
        down += mark(h, p, q, t, s);
    }
    up == down
}

// Whether the line of edge j parts it from the way.
fn parts_edge(st: &[u64], a: &[u64], b: &[u64], ls: &[u64], j: usize) -> bool
    requires { ReasonLent st.now a.now b.now ls.now × (j < length st.now / 2) }
    ensures { result ≡ parts_at st.now a.now b.now ls.now j }
{
    let s = spot_at(st, j);
    let t = spot_at(st, next(j, st.len() / 2));
    parts(a, b, s, t, spot_at(ls, 2 * j), spot_at(ls, 2 * j + 1))
}

// The check: the first edge that is not parted; else the balance decides.
pub fn check(st: &[u64], a: &[u64], b: &[u64], ls: &[u64]) -> Ground
    requires { ReasonLent st.now a.now b.now ls.now }
    ensures { ground result ≡ check_of st.now a.now b.now ls.now }
{
    let m = st.len() / 2;
    for j in 0..m {
        if !parts_edge(st, a, b, ls, j) {
            return Ground::Edge(j);
        }
    }
    if balanced(st, ls, lowest(a, b)) {
        Ground::Clear
    } else {
        Ground::Enclosed
    }
}
