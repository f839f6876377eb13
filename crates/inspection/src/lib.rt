// The places of a path that a shift inspects: the next ones in path order, the last on to the first.
#![tactic(auto)]

pub mod calls;

ghost use Rattle.std.specs.Prelude.{◌≡◌, ◌<◌, ◌≤◌, length};
ghost use Rattle.ring.specs.Room.{laid};
ghost use Rattle.inspection.specs.Places.{next_place, place_after, places_from, per_shift};

// What a shift answers: how many places it inspects and where the next shift starts.
#[derive(Clone, Copy, Debug, PartialEq, Eq)]
pub struct Shift {
    pub places: usize,
    pub following: u64,
}

// The place after this one on a path of n places: after the last, the first.
fn next_place(n: u64, place: u64) -> u64
    requires { place < n }
    ensures { result ≡ next_place n place }
{
    if place + 1 < n { place + 1 } else { 0 }
}

// How many places a shift of k inspects: all where there are fewer.
fn per_shift(n: u64, k: u64) -> u64
    ensures { result ≡ per_shift n k }
{
    if k <= n { k } else { n }
}

// The next m places, from the start on, at the front of the room: the place that follows them.
fn lay(n: u64, start: u64, m: usize, room: &mut [u64]) -> u64
    requires start_lt_n { start < n }
    requires m_in_bounds { m ≤ length room.old }
    ensures value { result ≡ place_after n start m }
    ensures room_after { room.new ≡ laid (places_from n start m) room.old }
{
    let mut place = start;
    for slot in &mut room[..m] {
        *slot = place;
        place = next_place(n, place);
    }
    place
}
