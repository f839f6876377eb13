// The corners of a disc put aside on the grid by 1 or 2 units, in one of ten ways: rounding to the grid can push what only
// touches into each other, and so a later call asks whether the disc is clear there. All numbers are moved up by a million.
#![tactic(auto)]

ghost use Rattle.std.specs.Prelude.{◌≡◌, ◌+◌, ◌*◌, ◌/◌, ◌≤◌, ◌<◌, min, max, length};
ghost use Rattle.ring.specs.Room.{laid};
ghost use Rattle.shifted.specs.Shifted.{Small, SmallRing};
ghost use Rattle.put_aside.specs.Middle.{across_of, level, middle_of};
ghost use Rattle.put_aside.specs.Aside.{width_of, way_of, inward, if_less, step_by, across_step, towards, set_off, gone};
ghost use Rattle.put_aside.specs.Aside.{rule_of, step_of, corner_by, on_grid, put_spot, aside_by, stay_by, stays_on, room_of};
ghost use Rattle.put_aside.specs.Aside.{DiscLent, Ruled};

use shifted::{Spot, spot_at};

// How far a corner goes: to the right, to the left, up, and down.
#[derive(Clone, Copy)]
pub struct Step {
    pub east: u64,
    pub west: u64,
    pub north: u64,
    pub south: u64,
}

// How corners are put aside: the way, the width, the move, and the middles of x, of y, and across the move.
#[derive(Clone, Copy)]
pub struct Rule {
    pub way: u32,
    pub w: u64,
    pub from: Spot,
    pub to: Spot,
    pub x: u64,
    pub y: u64,
    pub across: u64,
}

// By how many units `how` puts aside.
fn width_of(how: u32) -> u64
    ensures { (result ≡ width_of how) × (result ≤ 2) }
{
    if how == 0 {
        return 0;
    }
    if how <= 10 { 1 } else { 2 }
}

// In which way: 0 as it is, 1 drawn in, 2 drawn in across the move, 3 to 10 set off.
fn way_of(how: u32) -> u32
    ensures { result ≡ way_of how }
{
    if how <= 10 { how } else { how - 10 }
}

// How far a corner lies across the move, and 8,000,000,000,000.
fn across_of(from: Spot, to: Spot, v: Spot) -> u64
    requires { Small from × Small to × Small v }
    ensures { (result ≡ across_of from to v) × (result ≤ 16000000000000) }
{
    let plus = to.x * v.y + from.y * v.x + 8000000000000;
    let minus = from.x * v.y + to.y * v.x;
    plus - minus
}

// What a middle is taken of: 0 x, 1 y, 2 how far across.
fn level(axis: u32, from: Spot, to: Spot, v: Spot) -> u64
    requires { Small from × Small to × Small v }
    ensures { (result ≡ level axis from to v) × (result ≤ 16000000000000) }
{
    match axis {
        0 => v.x,
        1 => v.y,
        _ => across_of(from, to, v),
    }
}

// The middle of the least and the greatest of it, rounded down.
fn middle_of(axis: u32, list: &[u64], from: Spot, to: Spot) -> u64
    requires { DiscLent list.now from to }
    ensures { (result ≡ middle_of axis list.now from to) × (result ≤ 16000000000000) }
{
    let n = list.len() / 2;
    let mut low = level(axis, from, to, spot_at(list, 0));
    let mut high = low;
    for i in 0..n {
        let k = level(axis, from, to, spot_at(list, i));
        low = low.min(k);
        high = high.max(k);
    }
    (low + high) / 2
}

// The rule of `how`.
fn rule_of(list: &[u64], from: Spot, to: Spot, how: u32) -> Rule
    requires { DiscLent list.now from to }
    ensures { (result ≡ rule_of list.now from to how) × Ruled result }
{
    Rule {
        way: way_of(how),
        w: width_of(how),
        from,
        to,
        x: middle_of(0, list, from, to),
        y: middle_of(1, list, from, to),
        across: middle_of(2, list, from, to),
    }
}

// A coordinate drawn in by w to the middle c.
fn inward(w: u64, c: u64, x: u64) -> u64
    requires { (w ≤ 2) × (c ≤ 16000000000000) × (x ≤ 2000000) }
    ensures { result ≡ inward w c x }
{
    if c + w < x {
        return x - w;
    }
    if x + w < c { x + w } else { c }
}

// w where a is less than b, else 0.
fn if_less(a: u64, b: u64, w: u64) -> u64
    ensures { result ≡ if_less a b w }
{
    if a < b { w } else { 0 }
}

// The step of width w to the left of the move.
fn across_step(w: u64, from: Spot, to: Spot) -> Step
    ensures { result ≡ across_step w from to }
{
    Step {
        east: if_less(to.y, from.y, w),
        west: if_less(from.y, to.y, w),
        north: if_less(from.x, to.x, w),
        south: if_less(to.x, from.x, w),
    }
}

// A step by its four numbers.
fn step_by(east: u64, west: u64, north: u64, south: u64) -> Step
    ensures { result ≡ step_by east west north south }
{
    Step {
        east,
        west,
        north,
        south,
    }
}

// The step towards the middle m of a corner that lies at k.
fn towards(w: u64, from: Spot, to: Spot, m: u64, k: u64) -> Step
    ensures { result ≡ towards w from to m k }
{
    if m < k {
        return across_step(w, to, from);
    }
    if k < m {
        return across_step(w, from, to);
    }
    step_by(0, 0, 0, 0)
}

// The step by which all corners are set off.
fn set_off(way: u32, w: u64) -> Step
    ensures { result ≡ set_off way w }
{
    match way {
        3 => step_by(w, 0, 0, 0),
        4 => step_by(0, 0, w, 0),
        5 => step_by(0, w, 0, 0),
        6 => step_by(0, 0, 0, w),
        7 => step_by(w, 0, w, 0),
        8 => step_by(0, w, w, 0),
        9 => step_by(0, w, 0, w),
        _ => step_by(w, 0, 0, w),
    }
}

// A coordinate that goes forth and back; 2,000,001 where it would come below zero.
fn gone(x: u64, plus: u64, minus: u64) -> u64
    requires { (x ≤ 2000000) × (plus ≤ 2) }
    ensures { result ≡ gone x plus minus }
{
    let sum = x + plus;
    if sum < minus { 2000001 } else { sum - minus }
}

// The step of a corner that is not drawn in.
fn step_of(r: Rule, v: Spot) -> Step
    requires { Ruled r × Small v }
    ensures { result ≡ step_of r v }
{
    if r.way == 0 {
        return step_by(0, 0, 0, 0);
    }
    if r.way == 2 {
        return towards(r.w, r.from, r.to, r.across, across_of(r.from, r.to, v));
    }
    set_off(r.way, r.w)
}

// A corner put aside.
fn corner_by(r: Rule, v: Spot) -> Spot
    requires { Ruled r × Small v }
    ensures { result ≡ corner_by r v }
{
    if r.way == 1 {
        return Spot {
            x: inward(r.w, r.x, v.x),
            y: inward(r.w, r.y, v.y),
        };
    }
    let s = step_of(r, v);
    Spot {
        x: gone(v.x, s.east, s.west),
        y: gone(v.y, s.north, s.south),
    }
}

// Whether a point is on the grid.
fn on_grid(v: Spot) -> bool
    ensures { result ≡ on_grid v }
{
    if v.x <= 2000000 {
        v.y <= 2000000
    } else {
        false
    }
}

// Whether each corner put aside is.
fn stay_by(list: &[u64], r: Rule) -> bool
    requires { SmallRing list.now × Ruled r }
    ensures { result ≡ stay_by list.now r }
{
    let n = list.len() / 2;
    for i in 0..n {
        if !on_grid(corner_by(r, spot_at(list, i))) {
            return false;
        }
    }
    true
}

// A point, written to a room as its point i.
fn put(room: &mut [u64], i: usize, v: Spot)
    requires { 2 * i + 1 < length room.old }
    ensures { room.new ≡ put_spot room.old i v }
{
    room[2 * i] = v.x;
    room[2 * i + 1] = v.y;
}

// The corners put aside, at the front of the room.
fn lay(list: &[u64], r: Rule, room: &mut [u64])
    requires { SmallRing list.now × Ruled r × (length list.now ≤ length room.old) }
    ensures { room.new ≡ laid (aside_by list.now r) room.old }
{
    let n = list.len() / 2;
    for i in 0..n {
        put(room, i, corner_by(r, spot_at(list, i)));
    }
}

// Whether all corners, put aside by `how`, stay on the grid; the room then holds them, and else what it held.
pub fn put_aside(list: &[u64], from: Spot, to: Spot, how: u32, room: &mut [u64]) -> bool
    requires { DiscLent list.now from to × (how ≤ 20) × (length list.now ≤ length room.old) }
    ensures value { result ≡ stays_on list.now from to how }
    ensures room_after { room.new ≡ room_of list.now from to how room.old }
{
    let r = rule_of(list, from, to, how);
    if !stay_by(list, r) {
        return false;
    }
    lay(list, r, room);
    true
}
