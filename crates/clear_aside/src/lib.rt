// Whether a move on the grid is clear of a ring with the disc put aside a little: the search as it is, and then in each of the
// ways of put_aside until one parts every edge; and the check of lines that are lent. All numbers are moved up.
#![tactic(auto)]

ghost use Rattle.std.specs.Prelude.{true, ◌≡◌, ◌≤◌, length};
ghost use Rattle.shifted.specs.Shifted.{SmallRing};
ghost use Rattle.reasons.specs.Check.{clear};
ghost use Rattle.reason_check.specs.Told.{ground};
ghost use Rattle.drawn_aside.specs.Found.{depth_of, stays_both, found_by, checked_by, edge_first, least_from, least_how};
ghost use Rattle.clear_aside.specs.Aside.{least, DiscMoved, Asked, BothHold, LinesHeld, Kept};

use put_aside::put_aside;
use reason_check::{Ground, check};
use reason_search::search;
use shifted::Spot;

// What is found: clear with the disc put by this `how`; by none, and this is the first edge that is not parted with 0; the way is
// enclosed, with this `how`.
#[derive(Clone, Copy, Debug, PartialEq, Eq)]
pub enum Found {
    Clear(u32),
    Edge(usize),
    Enclosed(u32),
}

// How deep at most something reaches where the disc is put by `how`, in units.
pub fn depth_of(how: u32) -> u32
    ensures { (result ≡ depth_of how) × (result ≤ 7) }
{
    if how == 0 {
        return 3;
    }
    if how <= 10 { 5 } else { 7 }
}

// Whether the disc, put aside by `how`, stays on the grid at the start and at the end of a move; the rooms then hold it.
fn put_both(
    a: &[u64],
    b: &[u64],
    from: Spot,
    to: Spot,
    how: u32,
    start: &mut [u64],
    end: &mut [u64],
) -> bool
    requires disc_moved { DiscMoved a.now b.now from to × (how ≤ 20) }
    requires in_bounds { (512 ≤ length start.old) × (512 ≤ length end.old) }
    ensures value { result ≡ stays_both a.now b.now from to how }
    ensures both_hold { result ≡ true → BothHold a.now b.now from to how start.new end.new }
{
    if put_aside(a, from, to, how, start) {
        put_aside(b, from, to, how, end)
    } else {
        false
    }
}

// What the search finds with the disc put aside by `how`, its lines at the front of the room.
fn search_by(
    st: &[u64],
    a: &[u64],
    b: &[u64],
    from: Spot,
    to: Spot,
    how: u32,
    lines: &mut [u64],
) -> Ground
    requires { Asked st.now a.now b.now from to lines.old × (how ≤ 20) }
    ensures result_value { ground result ≡ found_by st.now a.now b.now from to how }
    ensures lines_held { (ground result ≡ clear → LinesHeld st.now a.now b.now from to how lines.new)
        × (length lines.new ≡ length lines.old) }
{
    let mut start = [0u64; 512];
    let mut end = [0u64; 512];
    if put_both(a, b, from, to, how, &mut start, &mut end) {
        search(st, &start[..a.len()], &end[..b.len()], lines)
    } else {
        Ground::Edge(0)
    }
}

// The first of the ways 1 to 20 by which every edge is parted; else the edge j.
fn search_on(
    st: &[u64],
    a: &[u64],
    b: &[u64],
    from: Spot,
    to: Spot,
    j: usize,
    lines: &mut [u64],
) -> Found
    requires { Asked st.now a.now b.now from to lines.old }
    ensures result_value { least result ≡ least_from (found_by st.now a.now b.now from to) 1 20 (edge_first j) }
    ensures kept { Kept st.now a.now b.now from to result lines.new }
{
    for how in 1..=20 {
        match search_by(st, a, b, from, to, how, lines) {
            Ground::Clear => return Found::Clear(how),
            Ground::Edge(_) => {}
            Ground::Enclosed => return Found::Enclosed(how),
        }
    }
    Found::Edge(j)
}

// What is found with the least `how` that parts every edge; where it is clear, the lines are at the front of the room.
pub fn search_aside(
    st: &[u64],
    a: &[u64],
    b: &[u64],
    from: Spot,
    to: Spot,
    lines: &mut [u64],
) -> Found
    requires { Asked st.now a.now b.now from to lines.old }
    ensures result_value { least result ≡ least_how st.now a.now b.now from to }
    ensures kept { Kept st.now a.now b.now from to result lines.new }
{
    match search(st, a, b, lines) {
        Ground::Clear => Found::Clear(0),
        Ground::Edge(j) => search_on(st, a, b, from, to, j, lines),
        Ground::Enclosed => Found::Enclosed(0),
    }
}

// What the check finds of lines that are lent, with the disc put aside by `how`; edge 0 where a corner leaves the grid.
pub fn check_aside(
    st: &[u64],
    a: &[u64],
    b: &[u64],
    from: Spot,
    to: Spot,
    how: u32,
    lines: &[u64],
) -> Ground
    requires { Asked st.now a.now b.now from to lines.now × SmallRing lines.now × (how ≤ 20) }
    ensures { ground result ≡ checked_by st.now a.now b.now from to how lines.now }
{
    let mut start = [0u64; 512];
    let mut end = [0u64; 512];
    if put_both(a, b, from, to, how, &mut start, &mut end) {
        check(st, &start[..a.len()], &end[..b.len()], lines)
    } else {
        Ground::Edge(0)
    }
}
