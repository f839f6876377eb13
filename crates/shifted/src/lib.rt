// Whole coordinates moved up by a million, so that no number is below zero: the leaf of all that reckons in whole numbers.
#![tactic(auto)]

ghost use Rattle.std.specs.Prelude.{map, ◌≡◌, ◌/◌, ◌≤◌, ◌<◌, length};
ghost use Rattle.ring.specs.Room.{laid};
ghost use Rattle.shifted.specs.Shifted.{in_bounds, up_of, spot_of, spot_at};

// A point with each coordinate moved up.
#[derive(Clone, Copy, Debug, PartialEq, Eq)]
pub struct Spot {
    pub x: u64,
    pub y: u64,
}

// Whether a coordinate is within a million.
pub fn is_within(x: i32) -> bool
    ensures { result ≡ in_bounds x }
{
    if x < -1000000 { false } else { x <= 1000000 }
}

// The coordinate and a million; 2,000,001 for one that is out of bounds.
pub fn up(x: i32) -> u64
    ensures { result ≡ up_of x }
{
    if x < -1000000 {
        return 2000001;
    }
    if x > 1000000 {
        return 2000001;
    }
    (x + 1000000) as u64
}

// The point of two coordinates.
pub fn spot_of(x: i32, y: i32) -> Spot
    ensures { result ≡ spot_of x y }
{
    Spot { x: up(x), y: up(y) }
}

// Each coordinate of a list moved up, at the front of the room.
pub fn lift(list: &[i32], room: &mut [u64])
    requires { length list.now ≤ length room.old }
    ensures { room.new ≡ laid (map up_of list.now) room.old }
{
    for (i, &x) in list.iter().enumerate() {
        room[i] = up(x);
    }
}

// Point i of a list of coordinates that are moved up.
pub fn spot_at(list: &[u64], i: usize) -> Spot
    requires { i < length list.now / 2 }
    ensures { result ≡ spot_at list.now i }
{
    Spot {
        x: list[2 * i],
        y: list[2 * i + 1],
    }
}
