// The faults of lent lists, each told with the list's place: 1 for a length that fits no whole number of entries, 8 for too few entries, 9
// for too many, tested in this order.
ghost use Rattle.std.specs.Prelude.{◌≡◌, map, ◌≤◌, length};
ghost use Rattle.refusals.specs.Lists.{Extent, list_fault, fault_of, ring_extent, polygon_extent, points_extent};
ghost use Rattle.refusals.specs.Answers.{tested};
ghost use Rattle.refusals.specs.Lists.{vectors_extent, rings_extent, count_extent};

use crate::screen::unless;
use crate::{POINTS_MOST, RINGS_LEAST, RINGS_MOST, Refusal, VERTICES_LEAST, VERTICES_MOST};

// A list of size numbers, of which each entry has so many, in its place.
#[tactic(auto, using(crate::proofs::Tests::refused))]
pub fn fault(
    size: usize,
    width: usize,
    least: usize,
    most: usize,
    place: u64,
) -> Result<(), Refusal>
    requires { 1 ≤ width }
    ensures { tested result ≡ list_fault (record { width = width; least = least; most = most; size = size }) place }
{
    if size % width != 0 {
        return Err(Refusal::Length(place));
    }
    let entries = size / width;
    if entries < least {
        return Err(Refusal::Few(place));
    }
    unless(entries <= most, Refusal::Many(place))
}

// A ring of 0 to 256 vertices.
pub fn ring(list: &[f64], place: u64) -> Result<(), Refusal>
    ensures { tested result ≡ list_fault (ring_extent list.now) place }
{
    fault(list.len(), 2, 0, VERTICES_MOST, place)
}

// A polygon of 3 to 256 vertices.
pub fn polygon(list: &[f64], place: u64) -> Result<(), Refusal>
    ensures { tested result ≡ list_fault (polygon_extent list.now) place }
{
    fault(list.len(), 2, VERTICES_LEAST, VERTICES_MOST, place)
}

// A list of 0 to 10,001 points.
pub fn points(list: &[f64], place: u64) -> Result<(), Refusal>
    ensures { tested result ≡ list_fault (points_extent list.now) place }
{
    fault(list.len(), 2, 0, POINTS_MOST, place)
}

// Vectors of three numbers, as many as there are.
pub fn vectors(list: &[f64], place: u64) -> Result<(), Refusal>
    ensures { tested result ≡ list_fault (vectors_extent list.now) place }
{
    fault(list.len(), 3, 0, list.len(), place)
}

// The number of a book's rings, in the place of that number.
pub fn rings(counts: &[u32]) -> Result<(), Refusal>
    ensures { tested result ≡ list_fault (rings_extent counts.now) (length counts.now) }
{
    fault(
        counts.len(),
        1,
        RINGS_LEAST,
        RINGS_MOST,
        counts.len() as u64,
    )
}

// A ring of a book, by its vertex count.
fn count(n: u32, place: u64) -> Result<(), Refusal>
    ensures { tested result ≡ list_fault (count_extent n) place }
{
    fault(n as usize, 1, VERTICES_LEAST, VERTICES_MOST, place)
}

// The rings of a book one after the other, by their vertex counts.
#[tactic(auto, using(crate::proofs::Tests::refused))]
pub fn counts(counts: &[u32]) -> Result<(), Refusal>
    ensures { tested result ≡ fault_of (map count_extent counts.now) }
{
    for (i, &n) in counts.iter().enumerate() {
        count(n, i as u64)?;
    }
    Ok(())
}
