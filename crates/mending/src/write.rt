// The vertices that stay, counted; and the mended ring and the report written to rooms that the caller lends.
ghost use Rattle.std.specs.Prelude.{◌≡◌, ℕ, ◌+◌, ◌*◌, ◌<◌, ◌≤◌, leb, length, set};
ghost use Rattle.ring.specs.Ring.{count};
ghost use Rattle.ring.specs.Room.{laid};
ghost use Rattle.refusals.specs.Answers.{answered, outcome, left};
ghost use Rattle.mending.specs.Mending.{trails_from, staying, going, mended_of, dropped_of, dropped_points};
ghost use Rattle.mending.specs.Calls.{fitting, sizes_of};

use crate::answer::Sizes;
use crate::{fate_at, row, trail};
use refusals::Refusal;
use ring::point_at;
use ring::room::put;

// How many vertices stay.
fn count_staying(ring: &[f64], end: usize) -> usize
    requires { (j : ℕ) → 1 ≤ j → trails_from ring.now j ≡ leb end j }
    ensures { (result ≡ length (staying ring.now)) × (result ≤ count ring.now) }
{
    let n = ring.len() / 2;
    let mut staying = 0;
    for i in 0..n {
        if fate_at(ring, end, i).is_none() {
            staying += 1;
        }
    }
    staying
}

// An index and why that vertex goes, as the entry k of a room.
fn put_why(room: &mut [u64], k: usize, i: usize, why: u64)
    requires { 2 * k + 1 < length room.old }
    ensures { room.new ≡ set (set room.old (2 * k) i) (2 * k + 1) why }
{
    room[2 * k] = i as u64;
    room[2 * k + 1] = why;
}

// The mended ring, and of each dropped vertex its index and why and its coordinates, at the fronts of the rooms.
fn write_mended(ring: &[f64], end: usize, room: &mut [f64], dropped: &mut [u64], points: &mut [f64])
    requires by_index { (j : ℕ) → 1 ≤ j → trails_from ring.now j ≡ leb end j }
    requires ring_in_bounds { 2 * length (staying ring.now) ≤ length room.old }
    requires ring_in_bounds_2 { 2 * length (going ring.now) ≤ length dropped.old }
    requires ring_in_bounds_3 { 2 * length (going ring.now) ≤ length points.old }
    ensures room_after { room.new ≡ laid (mended_of ring.now) room.old }
    ensures dropped_after { dropped.new ≡ laid (dropped_of ring.now) dropped.old }
    ensures points_after { points.new ≡ laid (dropped_points ring.now) points.old }
{
    let n = ring.len() / 2;
    let mut staying = 0;
    let mut gone = 0;
    for i in 0..n {
        match fate_at(ring, end, i) {
            None => {
                put(room, staying, point_at(ring, i));
                staying += 1;
            }
            Some(why) => {
                put_why(dropped, gone, i, why);
                put(points, gone, point_at(ring, i));
                gone += 1;
            }
        }
    }
}

// The mended ring and the report in the rooms, or the refusal of what remains or of a room that is too short.
#[tactic(auto, using(refusals::proofs::Tests::refused, crate::proofs::Screened::rest, crate::proofs::Screened::fit_is))]
pub fn answer(
    ring: &[f64],
    room: &mut [f64],
    dropped: &mut [u64],
    points: &mut [f64],
) -> Result<Sizes, Refusal>
    requires bound { 1 ≤ count ring.now }
    requires ring_bound { count ring.now ≤ 256 }
    ensures { (answered result ≡ outcome
        (fitting ring.now (length room.old) (length dropped.old) (length points.old))
        (sizes_of ring.now))
        × (room.new ≡ left
        (fitting ring.now (length room.old) (length dropped.old) (length points.old))
        (laid (mended_of ring.now) room.old)
        room.old)
        × (dropped.new ≡ left
        (fitting ring.now (length room.old) (length dropped.old) (length points.old))
        (laid (dropped_of ring.now) dropped.old)
        dropped.old)
        × (points.new ≡ left
        (fitting ring.now (length room.old) (length dropped.old) (length points.old))
        (laid (dropped_points ring.now) points.old)
        points.old) }
{
    let end = trail(ring);
    let staying = count_staying(ring, end);
    let gone = ring.len() / 2 - staying;
    row::mending(staying, gone, room.len(), dropped.len(), points.len())?;
    write_mended(ring, end, room, dropped, points);
    Ok(Sizes {
        vertices: staying,
        dropped: gone,
    })
}
