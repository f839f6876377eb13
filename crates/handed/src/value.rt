// Answers that are a value or a point. Each function writes the answer and returns no refusal, or returns the refusal and leaves the cells as they were.
#![tactic(auto, unfolding(crate::specs::Handed::refusal_in, crate::specs::Handed::told))]

ghost use Rattle.std.specs.Prelude.{◌≡◌};
ghost use Rattle.plane.specs.Orientation.{turn_number};
ghost use Rattle.refusals.specs.Answers.{answered, tested, turn};
ghost use Rattle.projection.specs.Calls.{projected};
ghost use Rattle.handed.specs.Handed.{refusal_in, told, itself, flag, x_of, y_of, parameter_in, foot_in};

use plane::{Orientation, Point};
use projection::answer::Projection;
use projection::foot::foot_code;
use refusals::Refusal;

// Whether something holds, as 1 or 0.
pub fn hand_truth(answer: Result<bool, Refusal>, out: &mut u32) -> Result<(), Refusal>
    ensures { (tested result ≡ refusal_in (answered answer)) × (out.new ≡ told flag (answered answer) out.old) }
{
    *out = answer? as u32;
    Ok(())
}

// A turn's number: 1 counter-clockwise, -1 clockwise, 0 collinear.
fn turn_number(turn: Orientation) -> i32
    ensures { result ≡ turn_number turn }
{
    match turn {
        Orientation::CounterClockwise => 1,
        Orientation::Clockwise => -1,
        Orientation::Collinear => 0,
    }
}

// A turn, as its number.
pub fn hand_turn(answer: Result<Orientation, Refusal>, out: &mut i32) -> Result<(), Refusal>
    ensures { (tested result ≡ refusal_in (turn answer)) × (out.new ≡ told itself (turn answer) out.old) }
{
    *out = turn_number(answer?);
    Ok(())
}

// A number.
pub fn hand_number(answer: Result<f64, Refusal>, out: &mut f64) -> Result<(), Refusal>
    ensures { (tested result ≡ refusal_in (answered answer)) × (out.new ≡ told itself (answered answer) out.old) }
{
    *out = answer?;
    Ok(())
}

// A foot's parameter, and the number of where it sits.
pub fn hand_projected(
    answer: Result<Projection, Refusal>,
    parameter: &mut f64,
    foot: &mut u32,
) -> Result<(), Refusal>
    ensures { (tested result ≡ refusal_in (projected answer))
        × (parameter.new ≡ told parameter_in (projected answer) parameter.old)
        × (foot.new ≡ told foot_in (projected answer) foot.old) }
{
    let projection = answer?;
    *parameter = projection.parameter;
    *foot = foot_code(projection.foot);
    Ok(())
}

// How many entries were written.
pub fn hand_count(answer: Result<usize, Refusal>, out: &mut u64) -> Result<(), Refusal>
    ensures { (tested result ≡ refusal_in (answered answer)) × (out.new ≡ told itself (answered answer) out.old) }
{
    *out = answer? as u64;
    Ok(())
}

// A position.
pub fn hand_start(answer: Result<Point, Refusal>, x: &mut f64, y: &mut f64) -> Result<(), Refusal>
    ensures { (tested result ≡ refusal_in (answered answer))
        × (x.new ≡ told x_of (answered answer) x.old)
        × (y.new ≡ told y_of (answered answer) y.old) }
{
    let p = answer?;
    *x = p.x;
    *y = p.y;
    Ok(())
}
