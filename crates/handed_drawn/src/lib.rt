// What is found of drawn moves. On an answer the ground is written, the depth and how the disc was put with 0 and 2, the edge with
// 1; of a path the depth with 0, the leg with 1 and 2, the edge with 1. A refusal leaves the cells as they were.
#![tactic(auto, unfolding(handed::specs::Handed::refusal_in, handed::specs::Handed::told, handed::specs::Handed::told_found, crate::specs::Drawn::least_ground, crate::specs::Drawn::least_depth, crate::specs::Drawn::least_put, crate::specs::Drawn::least_edge, crate::specs::Drawn::path_ground, crate::specs::Drawn::path_depth, crate::specs::Drawn::path_leg, crate::specs::Drawn::path_edge))]

ghost use Rattle.std.specs.Prelude.{◌≡◌};
ghost use Rattle.refusals.specs.Answers.{answered, tested};
ghost use Rattle.clear_drawn.specs.Calls.{judged};
ghost use Rattle.handed.specs.Handed.{refusal_in, told, told_found, itself};
ghost use Rattle.handed_drawn.specs.Drawn.{part_in, least_ground, least_depth, least_put, least_edge};
ghost use Rattle.handed_drawn.specs.Drawn.{path_ground, path_depth, path_leg, path_edge};

use clear_aside::{Found, depth_of};
use clear_drawn_path::PathFound;
use refusals::Refusal;

// The ground's number, the depth, how the disc was put, and the edge.
pub fn hand_judged(
    answer: Result<Found, Refusal>,
    ground: &mut u32,
    depth: &mut u32,
    how: &mut u32,
    edge: &mut u64,
) -> Result<(), Refusal>
    ensures { let o = judged answer in
        (tested result ≡ refusal_in o)
        × (ground.new ≡ told least_ground o ground.old)
        × (depth.new ≡ told_found itself (part_in least_depth o) depth.old)
        × (how.new ≡ told_found itself (part_in least_put o) how.old)
        × (edge.new ≡ told_found itself (part_in least_edge o) edge.old) }
{
    match answer? {
        Found::Clear(put) => {
            *ground = 0;
            *depth = depth_of(put);
            *how = put;
        }
        Found::Edge(j) => {
            *ground = 1;
            *edge = j as u64;
        }
        Found::Enclosed(put) => {
            *ground = 2;
            *depth = depth_of(put);
            *how = put;
        }
    }
    Ok(())
}

// The same but how the disc was put, which is lent.
pub fn hand_checked(
    answer: Result<Found, Refusal>,
    ground: &mut u32,
    depth: &mut u32,
    edge: &mut u64,
) -> Result<(), Refusal>
    ensures { let o = judged answer in
        (tested result ≡ refusal_in o)
        × (ground.new ≡ told least_ground o ground.old)
        × (depth.new ≡ told_found itself (part_in least_depth o) depth.old)
        × (edge.new ≡ told_found itself (part_in least_edge o) edge.old) }
{
    let mut how = 0;
    hand_judged(answer, ground, depth, &mut how, edge)
}

// The ground's number, the depth of all legs, the first leg that is not clear, and the edge.
pub fn hand_path_judged(
    answer: Result<PathFound, Refusal>,
    ground: &mut u32,
    depth: &mut u32,
    leg: &mut u64,
    edge: &mut u64,
) -> Result<(), Refusal>
    ensures { let o = answered answer in
        (tested result ≡ refusal_in o)
        × (ground.new ≡ told path_ground o ground.old)
        × (depth.new ≡ told_found itself (part_in path_depth o) depth.old)
        × (leg.new ≡ told_found itself (part_in path_leg o) leg.old)
        × (edge.new ≡ told_found itself (part_in path_edge o) edge.old) }
{
    match answer? {
        PathFound::Clear(most) => {
            *ground = 0;
            *depth = most;
        }
        PathFound::Edge { leg: i, edge: j } => {
            *ground = 1;
            *leg = i as u64;
            *edge = j as u64;
        }
        PathFound::Enclosed(i) => {
            *ground = 2;
            *leg = i as u64;
        }
    }
    Ok(())
}
