// The single tests of what calls are lent beside the lengths of lists, as refusals.
ghost use Rattle.std.specs.Prelude.{◌≡◌};
ghost use Rattle.refusals.specs.Refusals.{unless};
ghost use Rattle.refusals.specs.Answers.{tells, tested};
ghost use Rattle.refusals.specs.Screens.{wrong_number, wrong_infinite, wrong_point, wrong_position, wrong_tolerance, wrong_settings};
ghost use Rattle.refusals.specs.Screens.{wrong_work, wrong_result, short_room, wrong_book_rooms, wrong_fit, wrong_room};

use crate::test::{
    are_coordinates, are_finite, is_finite_point, is_point, is_settings, is_tolerance, is_work_room,
};
use crate::{Refusal, Settings};
use plane::Point;

// The refusal where a test does not hold.
pub fn unless(ok: bool, refusal: Refusal) -> Result<(), Refusal>
    ensures { tested result ≡ unless ok (tells refusal).number (tells refusal).place }
{
    if ok { Ok(()) } else { Err(refusal) }
}

// The coordinates of a list.
pub fn numbers(list: &[f64]) -> Result<(), Refusal>
    ensures { tested result ≡ wrong_number list.now }
{
    unless(are_coordinates(list), Refusal::Number)
}

// The numbers of a list that need only be finite.
pub fn finite_numbers(list: &[f64]) -> Result<(), Refusal>
    ensures { tested result ≡ wrong_infinite list.now }
{
    unless(are_finite(list), Refusal::Number)
}

// A move or a position, which need only be finite.
pub fn position(p: Point) -> Result<(), Refusal>
    ensures { tested result ≡ wrong_position p }
{
    unless(is_finite_point(p), Refusal::Number)
}

// A single point.
pub fn point(p: Point) -> Result<(), Refusal>
    ensures { tested result ≡ wrong_point p }
{
    unless(is_point(p), Refusal::Number)
}

// A tolerance.
pub fn tolerance(tol: f64) -> Result<(), Refusal>
    ensures { tested result ≡ wrong_tolerance tol }
{
    unless(is_tolerance(tol), Refusal::Setting)
}

// The settings of a trace.
pub fn settings(s: Settings) -> Result<(), Refusal>
    ensures { tested result ≡ wrong_settings s }
{
    unless(is_settings(s), Refusal::Setting)
}

// A work room of so many numbers.
pub fn work_room(size: usize) -> Result<(), Refusal>
    ensures { tested result ≡ wrong_work size }
{
    unless(is_work_room(size), Refusal::Room)
}

// A result room beside a work room.
pub fn result_room(work: usize, res: usize) -> Result<(), Refusal>
    ensures { tested result ≡ wrong_result work res }
{
    unless(work <= res, Refusal::Room)
}

// A room of so many entries for a file, or a ring, that needs so many.
pub fn short(needed: usize, size: usize) -> Result<(), Refusal>
    ensures { tested result ≡ short_room needed size }
{
    unless(needed <= size, Refusal::Room)
}

// The rooms for what a book holds: its numbers, the counts of its rings and their parts.
pub fn book_rooms(
    needed: usize,
    size: usize,
    rings: usize,
    counts: usize,
    parts: usize,
) -> Result<(), Refusal>
    ensures { tested result ≡ wrong_book_rooms needed size rings counts parts }
{
    if size < needed {
        return Err(Refusal::Room);
    }
    if counts < rings {
        return Err(Refusal::Room);
    }
    unless(rings <= parts, Refusal::Room)
}

// A room of size numbers, of which so many are needed.
pub fn fit(needed: usize, size: usize) -> Result<(), Refusal>
    ensures { tested result ≡ wrong_fit needed size }
{
    unless(needed <= size, Refusal::Fit)
}

// A room of size numbers for an answer of so many points.
pub fn room(points: usize, size: usize) -> Result<(), Refusal>
    ensures { tested result ≡ wrong_room points size }
{
    unless(points <= size / 2, Refusal::Fit)
}
