// The readings of a lent ring by number, their order, and the least of them.
#![tactic(auto)]

ghost use Rattle.std.specs.Prelude.{◌≡◌, not, ◌*◌, ◌<◌, ◌≤◌, length, get_or, T};
ghost use Rattle.std.specs.Float.Ieee.{is_nan};
ghost use Rattle.reading.specs.Reading.{ord, flat, choice, earlier, best_of, is_least};
ghost use Rattle.reading.specs.Lent.{kept, ring_of, Lent, vertex_place, Keyed};
ghost use Rattle.reading.specs.Starts.{number_of, along, Settled, pushed_by};

// A coordinate's bits as a book keeps them: those of +0.0 for either zero.
pub fn kept_bits(x: f64) -> u64
    requires { T (not (is_nan x)) }
    ensures { result ≡ kept x }
{
    if x == 0.0 { 0 } else { f64::to_bits(x) }
}

// The place of a bit pattern in the order of numbers by size, -0.0 before +0.0.
fn key(b: u64) -> u64
    ensures { result ≡ ord b }
{
    if b < 0x8000_0000_0000_0000 {
        0x8000_0000_0000_0000 + b
    } else {
        0xffff_ffff_ffff_ffff - b
    }
}

// Where vertex i of the reading c lies on a ring of n vertices.
fn vertex(n: usize, c: usize, i: usize) -> usize
    requires { (n ≤ 256) × (c < 2 * n) × (i < n) }
    ensures { (result ≡ vertex_place n c i) × (result < n) }
{
    if c < n {
        let v = c + i;
        if v < n { v } else { v - n }
    } else {
        let v = c - i;
        if v < n { v } else { v - n }
    }
}

// The bits of coordinate j of the reading c.
pub fn coordinate(ring: &[f64], c: usize, j: usize) -> u64
    requires lent { Lent ring.now }
    requires c_in_bounds { (c < length ring.now) × (j < length ring.now) }
    ensures { result ≡ get_or (flat (choice (ring_of ring.now) c)) j 0 }
{
    let v = vertex(ring.len() / 2, c, j / 2);
    kept_bits(ring[2 * v + j % 2])
}

// The keys of a ring's coordinates, at the front of the room.
fn fill(ring: &[f64], room: &mut [u64])
    requires lent { Lent ring.now }
    requires ring_in_bounds { length ring.now ≤ length room.old }
    ensures { Keyed room.new ring.now }
{
    for (i, &x) in ring.iter().enumerate() {
        room[i] = key(kept_bits(x));
    }
}

// The key of coordinate j of the reading c, of a ring whose keys are at hand.
fn key_at(ring: &[f64], keys: &[u64], c: usize, j: usize) -> u64
    requires lent { Lent ring.now × Keyed keys.now ring.now }
    requires c_in_bounds { (c < length ring.now) × (j < length ring.now) }
    ensures { result ≡ ord (get_or (flat (choice (ring_of ring.now) c)) j 0) }
{
    let v = vertex(ring.len() / 2, c, j / 2);
    keys[2 * v + j % 2]
}

// Whether the reading a is before the reading b: the first difference decides.
fn before(ring: &[f64], keys: &[u64], a: usize, b: usize) -> bool
    requires lent { Lent ring.now × Keyed keys.now ring.now }
    requires a_in_bounds { (a < length ring.now) × (b < length ring.now) }
    ensures { result ≡ earlier (choice (ring_of ring.now) a) (choice (ring_of ring.now) b) }
{
    for j in 0..ring.len() {
        let u = key_at(ring, keys, a, j);
        let v = key_at(ring, keys, b, j);
        if u < v {
            return true;
        }
        if v < u {
            return false;
        }
    }
    false
}

// The number of the reading that starts u vertices on in a direction: onward from the first vertex, or back from the last.
fn number(n: usize, back: bool, u: usize) -> usize
    requires { (n ≤ 256) × (u < n) }
    ensures { (result ≡ number_of n back u) × (result < 2 * n) }
{
    if back { 2 * n - 1 - u } else { u }
}

// Two starts in one direction, the first before the second, and how many coordinates of their readings are known to be the same.
#[derive(Clone, Copy)]
struct Starts {
    first: usize,
    second: usize,
    alike: usize,
}

// The starts that are left where the next coordinates of the two readings have the keys u and v.
fn pushed(s: Starts, u: u64, v: u64) -> Starts
    requires { (s.first < 256) × (s.second < 256) × (s.alike < 512) }
    ensures { result ≡ pushed_by s u v }
{
    if u == v {
        return Starts {
            first: s.first,
            second: s.second,
            alike: s.alike + 1,
        };
    }
    let on = s.alike / 2 + 1;
    if u < v {
        return Starts {
            first: s.first,
            second: s.second + on,
            alike: 0,
        };
    }
    let t = s.first + on;
    if t < s.second {
        return Starts {
            first: s.second,
            second: s.second + 1,
            alike: 0,
        };
    }
    Starts {
        first: t,
        second: t + 1,
        alike: 0,
    }
}

// In one direction, the first start of the least readings, and the next one.
fn settle(ring: &[f64], keys: &[u64], back: bool) -> Starts
    requires lent { Lent ring.now × Keyed keys.now ring.now }
    requires ring_nonzero { 0 < length ring.now }
    ensures { Settled (along (ring_of ring.now) back) (length (ring_of ring.now)) result.first result.second }
{
    let n = ring.len() / 2;
    let mut s = Starts {
        first: 0,
        second: 1,
        alike: 0,
    };
    // What the keys are decides which starts come next, so a `for` would be no plainer.
    while s.second < n {
        if s.alike == ring.len() {
            return s;
        }
        let u = key_at(ring, keys, number(n, back, s.first), s.alike);
        let v = key_at(ring, keys, number(n, back, s.second), s.alike);
        s = pushed(s, u, v);
    }
    Starts {
        first: s.first,
        second: s.first + n,
        alike: s.alike,
    }
}

// The number of the first of the least readings: the lesser of both directions, onward where they are the same. The room is for keys.
fn least_in(ring: &[f64], room: &mut [u64]) -> usize
    requires lent { Lent ring.now }
    requires ring_nonzero { (0 < length ring.now) × (length ring.now ≤ length room.old) }
    ensures { (result ≡ best_of (ring_of ring.now)) × (result < length ring.now) }
{
    fill(ring, room);
    let n = ring.len() / 2;
    let onward = settle(ring, room, false);
    let back = settle(ring, room, true);
    let a = onward.first;
    let b = n + (n - 1 - back.first) % (back.second - back.first);
    if before(ring, room, b, a) { b } else { a }
}

// The number of the first of the least readings. A small ring has a small room, which takes less to set up.
pub fn least(ring: &[f64]) -> usize
    requires lent { Lent ring.now }
    requires ring_nonzero { 0 < length ring.now }
    ensures { (result ≡ best_of (ring_of ring.now)) × (result < length ring.now) }
{
    if ring.len() > 64 {
        let mut large = [0u64; 512];
        return least_in(ring, &mut large);
    }
    let mut small = [0u64; 64];
    least_in(ring, &mut small)
}

// Whether a ring is its own least reading.
pub fn is_least(ring: &[f64]) -> bool
    requires lent { Lent ring.now }
    requires ring_nonzero { 0 < length ring.now }
    ensures { result ≡ is_least (ring_of ring.now) }
{
    least(ring) == 0
}
