// The search for a reason that a way is clear: for each stationary edge the line of the edge before, or else the first line that
// parts it, and then the balance. All numbers are moved up, so that none is below zero: 1000000 stands for 0.
#![tactic(auto)]

ghost use Rattle.std.specs.Prelude.{◌≡◌, ◌+◌, ◌*◌, ◌/◌, ◌≤◌, ◌<◌, length};
ghost use Rattle.std.proofs.lemmas.List.Edits.{sets};
ghost use Rattle.shifted.specs.Shifted.{Small, spot_at};
ghost use Rattle.reason_check.specs.Lent.{WayLent};
ghost use Rattle.reason_check.specs.Told.{ground};
ghost use Rattle.reason_search.specs.Lines.{line, spot, lesser, greater, box_line, either_way};
ghost use Rattle.reason_search.specs.Below.{below};
ghost use Rattle.reason_search.specs.Search.{parting, anew, onward, reached, search_of};
ghost use Rattle.reason_search.specs.Room.{SearchLent, numbers, room_of};
ghost use Rattle.reason_search.specs.Noted.{IsBox, first_side, useful, way_lines, line_in, Noted};
ghost use Rattle.reason_search.specs.Noted.{Prepared, Ready, helpful, first_of_way, Held};

use reason_check::{Ground, balanced, differ, edge_right, lowest, parts, way_left};
use ring::next;
use shifted::{Spot, spot_at};

// A line, by two points.
#[derive(Clone, Copy)]
pub struct Line {
    pub p: Spot,
    pub q: Spot,
}

// A box, by its lower left corner and its upper right one.
#[derive(Clone, Copy)]
pub struct Span {
    pub low: Spot,
    pub high: Spot,
}

// The lower left corner of the box of two points.
fn low_of(u: Spot, v: Spot) -> Spot
    ensures { result ≡ lesser u v }
{
    Spot {
        x: u.x.min(v.x),
        y: u.y.min(v.y),
    }
}

// The upper right corner of the box of two points.
fn high_of(u: Spot, v: Spot) -> Spot
    ensures { result ≡ greater u v }
{
    Spot {
        x: u.x.max(v.x),
        y: u.y.max(v.y),
    }
}

// The box of the way: of all corners, at the start and at the end.
fn box_of(a: &[u64], b: &[u64]) -> Span
    requires { WayLent a.now b.now × (0 < length a.now / 2) }
    ensures { IsBox a.now b.now result }
{
    let n = a.len() / 2;
    let mut low = spot_at(a, 0);
    let mut high = spot_at(a, 0);
    for i in 0..n {
        low = low_of(low_of(low, spot_at(a, i)), spot_at(b, i));
        high = high_of(high_of(high, spot_at(a, i)), spot_at(b, i));
    }
    Span { low, high }
}

// The line from (px, py) to (qx, qy).
fn line_of(px: u64, py: u64, qx: u64, qy: u64) -> Line
    ensures { result ≡ line (spot px py) (spot qx qy) }
{
    Line {
        p: Spot { x: px, y: py },
        q: Spot { x: qx, y: qy },
    }
}

// Side c of a box, with the box on its left: the right one, the top, the left one, the bottom.
fn side(c: usize, x: Span) -> Line
    ensures { result ≡ box_line c x.low x.high }
{
    match c {
        0 => line_of(x.high.x, 1000000, x.high.x, 1000001),
        1 => line_of(1000001, x.high.y, 1000000, x.high.y),
        2 => line_of(x.low.x, 1000001, x.low.x, 1000000),
        _ => line_of(1000000, x.low.y, 1000001, x.low.y),
    }
}

// The first side of a box that has the edge from s to t right of it or on it.
fn first_side(x: Span, s: Spot, t: Spot) -> Option<usize>
    requires { Small x.low × Small x.high × Small s × Small t }
    ensures { result ≡ below 4 (first_side x.low x.high s t) }
{
    for c in 0..4 {
        let k = side(c, x);
        if edge_right(k.p, k.q, s, t) {
            return Some(c);
        }
    }
    None
}

// The line from u to v, and for 1 the same turned round.
fn either_way(c: usize, u: Spot, v: Spot) -> Line
    ensures { result ≡ either_way c u v }
{
    if c == 0 {
        Line { p: u, q: v }
    } else {
        Line { p: v, q: u }
    }
}

// Line c of the way: of the way of a corner, of an edge at the start, or of an edge at the end.
fn way_line(a: &[u64], b: &[u64], c: usize) -> Line
    requires { WayLent a.now b.now × (c < way_lines a.now) }
    ensures { (result ≡ line_in a.now b.now c) × Small result.p × Small result.q }
{
    let n = a.len() / 2;
    if c < 2 * n {
        return either_way(c % 2, spot_at(a, c / 2), spot_at(b, c / 2));
    }
    let e = c - 2 * n;
    let i = e / 4;
    let k = next(i, n);
    if e % 4 < 2 {
        return either_way(e % 2, spot_at(a, i), spot_at(a, k));
    }
    either_way(e % 2, spot_at(b, i), spot_at(b, k))
}

// Whether line c of the way has two points, and the whole way left of it or on it.
fn is_useful(a: &[u64], b: &[u64], c: usize) -> bool
    requires { WayLent a.now b.now × (c < way_lines a.now) }
    ensures { result ≡ useful (spot_at a.now) (spot_at b.now) (length a.now / 2) c }
{
    let l = way_line(a, b, c);
    if differ(l.p, l.q) {
        way_left(a, b, l.p, l.q)
    } else {
        false
    }
}

// Notes for each line of the way whether it is of use.
fn note(a: &[u64], b: &[u64], flags: &mut [u8])
    requires { WayLent a.now b.now × (way_lines a.now ≤ length flags.old) }
    ensures { Noted a.now b.now flags.new (way_lines a.now) }
{
    let most = 6 * (a.len() / 2);
    for c in 0..most {
        flags[c] = u8::from(is_useful(a, b, c));
    }
}

// The same, where it is not noted yet.
fn prepare(a: &[u64], b: &[u64], flags: &mut [u8])
    requires { Ready a.now b.now flags.old }
    ensures ready { Ready a.now b.now flags.new }
    ensures prepared { Prepared a.now b.now flags.new }
{
    if flags[1536] == 255 {
        return;
    }
    note(a, b, flags);
    flags[1536] = 255;
}

// Whether line c of the way is noted, and the edge from s to t right of it or on it.
fn helps(a: &[u64], b: &[u64], flags: &[u8], s: Spot, t: Spot, c: usize) -> bool
    requires { Prepared a.now b.now flags.now × Small s × Small t × (c < way_lines a.now) }
    ensures { result ≡ helpful a.now b.now s t c }
{
    if flags[c] == 1 {
        let l = way_line(a, b, c);
        edge_right(l.p, l.q, s, t)
    } else {
        false
    }
}

// The first line of the way that parts the edge from s to t.
fn first_of_way(a: &[u64], b: &[u64], flags: &[u8], s: Spot, t: Spot) -> Option<usize>
    requires { Prepared a.now b.now flags.now × Small s × Small t }
    ensures { result ≡ below (way_lines a.now) (first_of_way a.now b.now s t) }
{
    let most = 6 * (a.len() / 2);
    for c in 0..most {
        if helps(a, b, flags, s, t, c) {
            return Some(c);
        }
    }
    None
}

// Whether line c of the way parts the edge from s to t, without the notes. The edge is looked at first.
fn helps_unnoted(a: &[u64], b: &[u64], s: Spot, t: Spot, c: usize) -> bool
    requires { WayLent a.now b.now × Small s × Small t × (c < way_lines a.now) }
    ensures { result ≡ helpful a.now b.now s t c }
{
    let l = way_line(a, b, c);
    parts(a, b, s, t, l.p, l.q)
}

// The first line of the way that does.
fn first_unnoted(a: &[u64], b: &[u64], s: Spot, t: Spot) -> Option<usize>
    requires { WayLent a.now b.now × (length a.now ≤ 512) × Small s × Small t }
    ensures { result ≡ below (way_lines a.now) (first_of_way a.now b.now s t) }
{
    let most = 6 * (a.len() / 2);
    for c in 0..most {
        if helps_unnoted(a, b, s, t, c) {
            return Some(c);
        }
    }
    None
}

// The same, without the notes for the first eight edges that ask, and then with them: most rings ask less often.
fn first_helping(a: &[u64], b: &[u64], flags: &mut [u8], s: Spot, t: Spot) -> Option<usize>
    requires { Ready a.now b.now flags.old × Small s × Small t }
    ensures value { result ≡ below (way_lines a.now) (first_of_way a.now b.now s t) }
    ensures ready { Ready a.now b.now flags.new }
{
    let asked = flags[1536];
    if asked < 8 {
        flags[1536] = asked + 1;
        return first_unnoted(a, b, s, t);
    }
    prepare(a, b, flags);
    first_of_way(a, b, flags, s, t)
}

// The first line that parts the edge from s to t: a side of the way's box, which has the way on its left whatever the way, a line
// of the way, or the edge's own.
fn take_anew(a: &[u64], b: &[u64], x: Span, flags: &mut [u8], s: Spot, t: Spot) -> Option<Line>
    requires { Ready a.now b.now flags.old × IsBox a.now b.now x × Small s × Small t }
    ensures value { result ≡ parting a.now b.now s t (anew a.now b.now s t) }
    ensures ready { Ready a.now b.now flags.new }
{
    if let Some(c) = first_side(x, s, t) {
        return Some(side(c, x));
    }
    if let Some(i) = first_helping(a, b, flags, s, t) {
        return Some(way_line(a, b, i));
    }
    if parts(a, b, s, t, s, t) {
        return Some(Line { p: s, q: t });
    }
    if parts(a, b, s, t, t, s) {
        return Some(Line { p: t, q: s });
    }
    None
}

// The line of the edge from s to t, where the edge before has the line l: l again, if it has the edge right of it or on it.
fn take(a: &[u64], b: &[u64], x: Span, flags: &mut [u8], l: Line, s: Spot, t: Spot) -> Option<Line>
    requires { Ready a.now b.now flags.old × IsBox a.now b.now x × Small s × Small t × Held a.now b.now l }
    ensures value { result ≡ parting a.now b.now s t (onward a.now b.now s t l) }
    ensures ready { Ready a.now b.now flags.new }
{
    if edge_right(l.p, l.q, s, t) {
        return Some(l);
    }
    take_anew(a, b, x, flags, s, t)
}

// The four numbers of line j, written to their place.
fn put(lines: &mut [u64], j: usize, l: Line)
    requires { 4 * j + 3 < length lines.old }
    ensures { lines.new ≡ sets lines.old (4 * j) (numbers l) }
{
    lines[4 * j] = l.p.x;
    lines[4 * j + 1] = l.p.y;
    lines[4 * j + 2] = l.q.x;
    lines[4 * j + 3] = l.q.y;
}

// Edge after edge its line, written to its place, until the first edge that none parts, which is told. Before the first edge the
// line is the right side of the way's box, which would be tried first anyway.
fn lay(
    st: &[u64],
    a: &[u64],
    b: &[u64],
    x: Span,
    flags: &mut [u8],
    lines: &mut [u64],
) -> Option<usize>
    requires { SearchLent st.now a.now b.now lines.old × Ready a.now b.now flags.old × IsBox a.now b.now x }
    ensures value { result ≡ below (length st.now / 2) (reached st.now a.now b.now) }
    ensures lines_after { lines.new ≡ room_of st.now a.now b.now lines.old }
{
    let m = st.len() / 2;
    let mut l = side(0, x);
    for j in 0..m {
        let s = spot_at(st, j);
        let t = spot_at(st, next(j, m));
        match take(a, b, x, flags, l, s, t) {
            Some(k) => l = k,
            None => return Some(j),
        }
        put(lines, j, l);
    }
    None
}

// The search: the first edge that no line parts; else the balance of the lines decides, which stand at the front of the room.
pub fn search(st: &[u64], a: &[u64], b: &[u64], lines: &mut [u64]) -> Ground
    requires { SearchLent st.now a.now b.now lines.old }
    ensures result_value { ground result ≡ search_of st.now a.now b.now }
    ensures lines_after { lines.new ≡ room_of st.now a.now b.now lines.old }
{
    let x = box_of(a, b);
    let mut flags = [0u8; 1537];
    if let Some(j) = lay(st, a, b, x, &mut flags, lines) {
        return Ground::Edge(j);
    }
    if balanced(st, lines, lowest(a, b)) {
        Ground::Clear
    } else {
        Ground::Enclosed
    }
}
