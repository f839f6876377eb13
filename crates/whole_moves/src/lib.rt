// Whole coordinates moved by a whole move, tested and moved up by a million; and numbers brought down again.
#![tactic(auto)]

ghost use Rattle.std.specs.Prelude.{map, ◌≡◌, ℕ, ◌≤◌, ◌<◌, ◌+ℤ◌, length, get_or, take};
ghost use Rattle.ring.specs.Room.{laid};
ghost use Rattle.shifted.specs.Shifted.{in_bounds, up_of};
ghost use Rattle.whole_engine.specs.Rows.{all_in_bounds};
ghost use Rattle.whole_moves.specs.Moved.{moved_by, moved_up, down_of};

// A coordinate and that of a move.
pub fn moved(z: i32, d: i32) -> i64
    ensures { result ≡ z +ℤ d }
{
    i64::from(z) + i64::from(d)
}

// Whether a coordinate that is moved is within a million.
pub fn is_moved_within(z: i32, d: i32) -> bool
    ensures { result ≡ in_bounds (z +ℤ d) }
{
    let s = moved(z, d);
    if s < -1000000 { false } else { s <= 1000000 }
}

// A coordinate that is moved, and a million; 2,000,001 where it is out of bounds.
pub fn up_moved(z: i32, d: i32) -> u64
    ensures { result ≡ up_of (z +ℤ d) }
{
    let s = moved(z, d);
    if s < -1000000 {
        return 2000001;
    }
    if s > 1000000 {
        return 2000001;
    }
    (s + 1000000) as u64
}

// Each coordinate of a list moved, and moved up, at the front of the room: x and y take turns.
pub fn lift_moved(list: &[i32], dx: i32, dy: i32, room: &mut [u64])
    requires { length list.now ≤ length room.old }
    ensures { room.new ≡ laid (moved_up list.now dx dy) room.old }
{
    let mut d = dx;
    let mut e = dy;
    for (i, &z) in list.iter().enumerate() {
        room[i] = up_moved(z, d);
        (d, e) = (e, d);
    }
}

// Whether each coordinate of a list, when it is moved, is within a million.
pub fn are_moved_within(list: &[i32], dx: i32, dy: i32) -> bool
    ensures { result ≡ all_in_bounds (moved_by dx dy list.now) }
{
    let mut d = dx;
    let mut e = dy;
    for &z in list {
        if !is_moved_within(z, d) {
            return false;
        }
        (d, e) = (e, d);
    }
    true
}

// A number less a million.
pub fn down(u: u64) -> i32
    requires { u ≤ 2000000 }
    ensures { result ≡ down_of u }
{
    u as i32 - 1000000
}

// The first n numbers of a list less a million each, at the front of the room.
pub fn lower(list: &[u64], n: usize, room: &mut [i32])
    requires n_in_bounds { (n ≤ length list.now) × (n ≤ length room.old) }
    requires by_index { (i : ℕ) → i < n → get_or list.now i 0 ≤ 2000000 }
    ensures { room.new ≡ laid (map down_of (take n list.now)) room.old }
{
    for (i, &u) in list[..n].iter().enumerate() {
        room[i] = down(u);
    }
}
