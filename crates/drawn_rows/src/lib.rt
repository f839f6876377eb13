// The tests of what the calls on drawn moves are lent: two polygons, positions, units, and lines. The numbers of lists with a
// fault are not read. A move is a path of two points.
#![tactic(auto)]

ghost use Rattle.std.specs.Prelude.{true, [], ◌∷◌, ◌≡◌, ◌/◌, ◌≤◌, length};
ghost use Rattle.refusals.specs.Bounds.{every};
ghost use Rattle.refusals.specs.Lists.{fault_of, polygon_extent};
ghost use Rattle.refusals.specs.Answers.{tested};
ghost use Rattle.to_grid.specs.Grid.{fits_grid};
ghost use Rattle.drawn_rows.specs.Rows.{drawn_path_extent, lines_extent, wrong_floats, disc_placed, all_on_grid};
ghost use Rattle.drawn_rows.specs.Rows.{drawn_numbers, of_drawn_move, of_drawn_path, of_drawn_reason, reason_numbers};

use refusals::lists::{fault, polygon};
use refusals::screen::{finite_numbers, numbers, unless};
use refusals::{POINTS_MOST, Refusal};
use to_grid::{are_units, are_within, lay, on_grid};
use whole_moves::are_moved_within;

// A path has two points at least.
const POINTS_LEAST: usize = 2;

// How many ways there are of putting a disc aside.
const HOW_MOST: u32 = 20;

// Whether each corner of the disc, put on the grid, is within the bounds at each point of the path, put there too.
fn is_placed(orbiting: &[f64], path: &[f64], units: u32) -> bool
    requires le_units { (1 ≤ units) × (units ≤ 1000000) × (length orbiting.now ≤ 512) }
    requires orbiting_value { (every (fits_grid units) orbiting.now ≡ true) × (every (fits_grid units) path.now ≡ true) }
    ensures { result ≡ disc_placed units orbiting.now path.now }
{
    let mut disc = [0i32; 512];
    lay(orbiting, units, &mut disc);
    let m = orbiting.len();
    let n = path.len() / 2;
    for i in 0..n {
        let x = on_grid(path[2 * i], units);
        let y = on_grid(path[2 * i + 1], units);
        if !are_moved_within(&disc[..m], x, y) {
            return false;
        }
    }
    true
}

// Whether all of it fits the grid.
fn fits_grid(stationary: &[f64], orbiting: &[f64], path: &[f64], units: u32) -> bool
    requires { (1 ≤ units) × (units ≤ 1000000) × (length orbiting.now ≤ 512) }
    ensures { result ≡ all_on_grid units stationary.now orbiting.now path.now }
{
    if !are_within(stationary, units) {
        return false;
    }
    if !are_within(orbiting, units) {
        return false;
    }
    if !are_within(path, units) {
        return false;
    }
    is_placed(orbiting, path, units)
}

// The floats, with refusal 2.
#[tactic(auto, using(refusals::proofs::Tests::refused))]
fn floats(stationary: &[f64], orbiting: &[f64], path: &[f64]) -> Result<(), Refusal>
    ensures { tested result ≡ wrong_floats stationary.now orbiting.now path.now }
{
    numbers(stationary)?;
    numbers(orbiting)?;
    finite_numbers(path)
}

// 2, 3 and 14. What fits the grid is a coordinate, so the lists are gone through once where nothing is refused.
#[tactic(auto, using(crate::proofs::Screened::all_fit, to_grid::proofs::Screened::units_are, refusals::proofs::Tests::refused), unfolding(crate::specs::Rows::drawn_numbers))]
fn drawn_numbers(
    stationary: &[f64],
    orbiting: &[f64],
    path: &[f64],
    units: u32,
) -> Result<(), Refusal>
    requires { length orbiting.now ≤ 512 }
    ensures { tested result ≡ drawn_numbers stationary.now orbiting.now path.now units }
{
    if !are_units(units) {
        floats(stationary, orbiting, path)?;
        return Err(Refusal::Setting);
    }
    if fits_grid(stationary, orbiting, path, units) {
        return Ok(());
    }
    floats(stationary, orbiting, path)?;
    Err(Refusal::Grid)
}

// The same with lines, whose numbers are tested behind the floats, and with `how` behind the units.
#[tactic(auto, using(to_grid::proofs::Screened::units_are, refusals::proofs::Tests::refused), unfolding(crate::specs::Rows::reason_numbers))]
fn reason_numbers(
    stationary: &[f64],
    orbiting: &[f64],
    path: &[f64],
    units: u32,
    how: u32,
    lines: &[i32],
) -> Result<(), Refusal>
    requires { length orbiting.now ≤ 512 }
    ensures { tested result ≡ reason_numbers stationary.now orbiting.now path.now units how
        lines.now }
{
    floats(stationary, orbiting, path)?;
    whole_engine::row::numbers(lines)?;
    unless(are_units(units), Refusal::Setting)?;
    unless(how <= HOW_MOST, Refusal::Setting)?;
    unless(fits_grid(stationary, orbiting, path, units), Refusal::Grid)
}

// The lengths of two polygons.
#[tactic(auto, using(refusals::proofs::Tests::refused))]
fn lengths(stationary: &[f64], orbiting: &[f64]) -> Result<(), Refusal>
    ensures { tested result ≡ fault_of (polygon_extent stationary.now ∷ polygon_extent orbiting.now ∷ []) }
{
    polygon(stationary, 0)?;
    polygon(orbiting, 1)
}

// And of a path.
#[tactic(auto, using(refusals::proofs::Tests::refused))]
fn path_lengths(stationary: &[f64], orbiting: &[f64], path: &[f64]) -> Result<(), Refusal>
    ensures { tested result ≡ fault_of
        (polygon_extent stationary.now
        ∷ polygon_extent orbiting.now
        ∷ drawn_path_extent path.now
        ∷ []) }
{
    lengths(stationary, orbiting)?;
    fault(path.len(), 2, POINTS_LEAST, POINTS_MOST, 2)
}

// And of lines, four numbers for each edge of the stationary polygon.
#[tactic(auto, using(refusals::proofs::Tests::refused))]
fn reason_lengths(stationary: &[f64], orbiting: &[f64], lines: &[i32]) -> Result<(), Refusal>
    ensures { tested result ≡ fault_of
        (polygon_extent stationary.now
        ∷ polygon_extent orbiting.now
        ∷ lines_extent stationary.now lines.now
        ∷ []) }
{
    lengths(stationary, orbiting)?;
    let edges = stationary.len() / 2;
    fault(lines.len(), 4, edges, edges, 2)
}

// Two polygons and a move.
#[tactic(auto, using(crate::proofs::Passed::two_short, refusals::proofs::Tests::refused), unfolding(crate::specs::Rows::of_drawn_move))]
pub fn drawn_move(
    stationary: &[f64],
    orbiting: &[f64],
    path: &[f64],
    units: u32,
) -> Result<(), Refusal>
    ensures { tested result ≡ of_drawn_move stationary.now orbiting.now path.now units }
{
    lengths(stationary, orbiting)?;
    drawn_numbers(stationary, orbiting, path, units)
}

// Two polygons and a path.
#[tactic(auto, using(crate::proofs::Passed::three_short, refusals::proofs::Tests::refused), unfolding(crate::specs::Rows::of_drawn_path))]
pub fn drawn_path(
    stationary: &[f64],
    orbiting: &[f64],
    path: &[f64],
    units: u32,
) -> Result<(), Refusal>
    ensures { tested result ≡ of_drawn_path stationary.now orbiting.now path.now units }
{
    path_lengths(stationary, orbiting, path)?;
    drawn_numbers(stationary, orbiting, path, units)
}

// Two polygons, a move, and lines for a disc put by `how`.
#[tactic(auto, using(crate::proofs::Passed::three_short, refusals::proofs::Tests::refused), unfolding(crate::specs::Rows::of_drawn_reason))]
pub fn drawn_reason(
    stationary: &[f64],
    orbiting: &[f64],
    path: &[f64],
    units: u32,
    how: u32,
    lines: &[i32],
) -> Result<(), Refusal>
    ensures { tested result ≡ of_drawn_reason stationary.now orbiting.now path.now units how
        lines.now }
{
    reason_lengths(stationary, orbiting, lines)?;
    reason_numbers(stationary, orbiting, path, units, how, lines)
}
