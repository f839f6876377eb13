// The public call: to_grid.
ghost use Rattle.std.specs.Prelude.{◌≡◌, length};
ghost use Rattle.refusals.specs.Answers.{answered, tested};
ghost use Rattle.to_grid.specs.Calls.{grid_numbers, of_grid, to_grid_call, to_grid_room};

use refusals::{Refusal, lists, screen};

// The numbers and the units, with the refusals 2, 3 and 14. What fits the grid is a coordinate, so the list is gone through once
// where nothing is refused.
#[tactic(auto, using(crate::proofs::Screened::all_coordinates, refusals::proofs::Tests::refused), unfolding(crate::specs::Calls::grid_numbers))]
fn numbers(points: &[f64], units: u32) -> Result<(), Refusal>
    ensures { tested result ≡ grid_numbers points.now units }
{
    if !crate::are_units(units) {
        screen::numbers(points)?;
        return Err(Refusal::Setting);
    }
    if crate::are_within(points, units) {
        return Ok(());
    }
    screen::numbers(points)?;
    Err(Refusal::Grid)
}

// All that is lent but the room. The numbers of a list with a fault are not read.
#[tactic(auto, using(refusals::proofs::Tests::refused), unfolding(crate::specs::Calls::of_grid))]
fn lent(points: &[f64], units: u32) -> Result<(), Refusal>
    ensures { tested result ≡ of_grid points.now units }
{
    lists::points(points, 0)?;
    numbers(points, units)
}

// The points on a grid of so many units in 1, in the room: how many points were written.
#[tactic(auto, using(refusals::proofs::Tests::refused), unfolding(crate::specs::Calls::to_grid_refusal))]
pub fn to_grid(points: &[f64], units: u32, room: &mut [i32]) -> Result<usize, Refusal>
    ensures result_value { answered result ≡ to_grid_call points.now units (length room.old) }
    ensures room_after { room.new ≡ to_grid_room points.now units room.old }
{
    lent(points, units)?;
    screen::fit(points.len(), room.len())?;
    crate::lay(points, units, room);
    Ok(points.len() / 2)
}
