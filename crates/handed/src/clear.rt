// What is found of whole moves. On an answer the ground is written, the leg of a path with 1 and 2, and the edge with 1 only; a refusal leaves the cells as
// they were.
#![tactic(auto, unfolding(crate::specs::Handed::refusal_in, crate::specs::Handed::told, crate::specs::Handed::told_found, crate::specs::Clear::move_ground, crate::specs::Clear::edge_of, crate::specs::Clear::leg_ground, crate::specs::Clear::leg_of, crate::specs::Clear::leg_edge_of))]

ghost use Rattle.std.specs.Prelude.{◌≡◌};
ghost use Rattle.refusals.specs.Answers.{answered, tested};
ghost use Rattle.clear_calls.specs.Calls.{judged};
ghost use Rattle.handed.specs.Handed.{refusal_in, told, told_found, itself};
ghost use Rattle.handed.specs.Clear.{move_ground, edge_in, leg_ground, leg_in, leg_edge_in};

use clear_path::PathGround;
use reason_check::Ground;
use refusals::Refusal;

// The ground's number, and the edge.
pub fn hand_judged(
    answer: Result<Ground, Refusal>,
    ground: &mut u32,
    edge: &mut u64,
) -> Result<(), Refusal>
    ensures { (tested result ≡ refusal_in (judged answer))
        × (ground.new ≡ told move_ground (judged answer) ground.old)
        × (edge.new ≡ told_found itself (edge_in (judged answer)) edge.old) }
{
    match answer? {
        Ground::Clear => *ground = 0,
        Ground::Edge(j) => {
            *ground = 1;
            *edge = j as u64;
        }
        Ground::Enclosed => *ground = 2,
    }
    Ok(())
}

// The ground's number, the first leg that is not clear, and the edge.
pub fn hand_path_judged(
    answer: Result<PathGround, Refusal>,
    ground: &mut u32,
    leg: &mut u64,
    edge: &mut u64,
) -> Result<(), Refusal>
    ensures { (tested result ≡ refusal_in (answered answer))
        × (ground.new ≡ told leg_ground (answered answer) ground.old)
        × (leg.new ≡ told_found itself (leg_in (answered answer)) leg.old)
        × (edge.new ≡ told_found itself (leg_edge_in (answered answer)) edge.old) }
{
    match answer? {
        PathGround::Clear => *ground = 0,
        PathGround::Edge { leg: i, edge: j } => {
            *ground = 1;
            *leg = i as u64;
            *edge = j as u64;
        }
        PathGround::Enclosed(i) => {
            *ground = 2;
            *leg = i as u64;
        }
    }
    Ok(())
}
