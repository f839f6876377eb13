// The tests of lent numbers and rooms: bounds of a number, of a list's numbers, of the settings.
ghost use Rattle.std.specs.Prelude.{◌≡◌, length};
ghost use Rattle.refusals.specs.Bounds.{coordinate, coordinates, finite, all_finite, point_ok, finite_point, tolerance_ok, smallest_ok, settings_ok, work_ok};

use crate::Settings;
use plane::Point;

// Whether x is finite and of magnitude at most 1,000,000.
pub fn is_coordinate(x: f64) -> bool
    ensures { result ≡ coordinate x }
{
    if x <= 1000000.0 {
        -1000000.0 <= x
    } else {
        false
    }
}

// Whether each number of a list is a coordinate.
pub fn are_coordinates(list: &[f64]) -> bool
    ensures { result ≡ coordinates list.now }
{
    for &x in list {
        if !is_coordinate(x) {
            return false;
        }
    }
    true
}

// Whether x is finite.
pub fn is_finite(x: f64) -> bool
    ensures { result ≡ finite x }
{
    if x < 1.0 / 0.0 { -1.0 / 0.0 < x } else { false }
}

// Whether each number of a list is finite.
pub fn are_finite(list: &[f64]) -> bool
    ensures { result ≡ all_finite list.now }
{
    for &x in list {
        if !is_finite(x) {
            return false;
        }
    }
    true
}

// Whether both numbers of a point are finite.
pub fn is_finite_point(p: Point) -> bool
    ensures { result ≡ finite_point p }
{
    if is_finite(p.x) {
        is_finite(p.y)
    } else {
        false
    }
}

// Whether both numbers of a point are coordinates.
pub fn is_point(p: Point) -> bool
    ensures { result ≡ point_ok p }
{
    if is_coordinate(p.x) {
        is_coordinate(p.y)
    } else {
        false
    }
}

// Whether a tolerance is above 0 and at most 1.
pub fn is_tolerance(x: f64) -> bool
    ensures { result ≡ tolerance_ok x }
{
    if x > 0.0 { x <= 1.0 } else { false }
}

// Whether a smallest move is finite and not negative.
pub fn is_smallest(x: f64) -> bool
    ensures { result ≡ smallest_ok x }
{
    if is_finite(x) { x >= 0.0 } else { false }
}

// Whether each setting is within its bounds: the tolerance, the smallest move, at most 10,000 passes.
pub fn is_settings(s: Settings) -> bool
    ensures { result ≡ settings_ok s }
{
    if is_tolerance(s.contact_tolerance) {
        if is_smallest(s.min_translation) {
            s.max_iterations <= 10000
        } else {
            false
        }
    } else {
        false
    }
}

// Whether a work room of so many numbers holds whole points, and one at least.
pub fn is_work_room(size: usize) -> bool
    ensures { result ≡ work_ok size }
{
    if size < 2 { false } else { size % 2 == 0 }
}
