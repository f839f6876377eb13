// A ring with repeated points, mended: of each run of equal neighbours the first stays, and the vertices at the end that equal the first go.
#![tactic(auto)]

pub mod answer;
pub mod calls;
mod row;
mod write;

ghost use Rattle.std.specs.Prelude.{◌≡◌, ℕ, ◌<◌, ◌≤◌, leb};
ghost use Rattle.ring.specs.Ring.{count};
ghost use Rattle.mending.specs.Mending.{trails_from, fate_of};

use plane::vector::same;
use ring::point_at;

// Why a vertex goes.
const RUN: u64 = 0;

const TRAILING: u64 = 1;

// From which vertex on each equals the first. The first is not counted among them.
fn trail(ring: &[f64]) -> usize
    requires { 1 ≤ count ring.now }
    ensures { (i : ℕ) → 1 ≤ i → trails_from ring.now i ≡ leb result i }
{
    let first = point_at(ring, 0);
    let mut end = ring.len() / 2;
    // A while: where it ends is the answer, so a `for` over the vertices from the last on would be no plainer.
    while 1 < end && same(first, point_at(ring, end - 1)) {
        end -= 1;
    }
    end
}

// Why vertex i goes, where those that trail begin at end, or nothing where it stays.
fn fate_at(ring: &[f64], end: usize, i: usize) -> Option<u64>
    requires i_bound { i < count ring.now }
    requires by_index { (j : ℕ) → 1 ≤ j → trails_from ring.now j ≡ leb end j }
    ensures { result ≡ fate_of ring.now i }
{
    if i == 0 {
        return None;
    }
    if same(point_at(ring, i - 1), point_at(ring, i)) {
        return Some(RUN);
    }
    if end <= i { Some(TRAILING) } else { None }
}
