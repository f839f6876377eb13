// The public call: make_disc.
ghost use Rattle.std.specs.Prelude.{◌≡◌, true, ◌*◌, length};
ghost use Rattle.ring.specs.Room.{laid};
ghost use Rattle.refusals.specs.Answers.{outcome, left, answered, tested};
ghost use Rattle.discs.specs.Disc.{quarter_ok, disc_of};
ghost use Rattle.discs.specs.Calls.{radius_ok, of_disc, of_vertices, disc_call, disc_room};

use crate::draw;
use plane::Point;
use refusals::Refusal;
use refusals::screen::{numbers, position, short, unless};
use refusals::test::is_finite;
use ring::room::copy;

// Whether a quarter may have m vertices.
fn is_quarter(m: usize) -> bool
    ensures { result ≡ quarter_ok m }
{
    matches!(m, 1 | 2 | 4 | 8 | 16 | 32 | 64)
}

// Whether a radius is finite and above 0.
fn is_radius(x: f64) -> bool
    ensures { result ≡ radius_ok x }
{
    if is_finite(x) { x > 0.0 } else { false }
}

// What is lent beside the room.
#[tactic(auto, using(refusals::proofs::Tests::refused), unfolding(crate::specs::Calls::of_disc))]
fn lent(centre: Point, radius: f64, m: usize) -> Result<(), Refusal>
    ensures { tested result ≡ of_disc centre radius m }
{
    unless(is_quarter(m), Refusal::Quarter)?;
    unless(is_radius(radius), Refusal::Number)?;
    position(centre)
}

// The disc of what is taken: all its vertices are tested before the room is written.
#[tactic(auto, using(crate::proofs::Seven::quarter_most, crate::proofs::Drawn::disc_front, refusals::proofs::Tests::refused), unfolding(crate::specs::Calls::of_vertices))]
fn answer(centre: Point, radius: f64, m: usize, room: &mut [f64]) -> Result<usize, Refusal>
    requires { quarter_ok m ≡ true }
    ensures result_value { answered result ≡ outcome (of_vertices centre radius m (length room.old)) (4 * m) }
    ensures room_after { room.new ≡ left (of_vertices centre radius m (length room.old))
        (laid (disc_of centre radius m) room.old) room.old }
{
    let n = 4 * m;
    let len = 2 * n;
    let mut disc = [0.0; 512];
    draw(centre, radius, m, &mut disc);
    numbers(&disc[..len])?;
    short(len, room.len())?;
    copy(&disc, len, room);
    Ok(n)
}

// A disc of 4m vertices, counter-clockwise from the right, in the room: how many vertices it has.
#[tactic(auto, using(crate::proofs::Screened::taken, refusals::proofs::Tests::refused), unfolding(crate::specs::Calls::disc_refusal))]
pub fn make_disc(centre: Point, radius: f64, m: usize, room: &mut [f64]) -> Result<usize, Refusal>
    ensures result_value { answered result ≡ disc_call centre radius m (length room.old) }
    ensures room_after { room.new ≡ disc_room centre radius m room.old }
{
    lent(centre, radius, m)?;
    answer(centre, radius, m, room)
}
