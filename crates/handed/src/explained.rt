// A collision answer with its ground. On an answer the ground and the three counts are written, and what belongs to a hit only where there is one;
// a refusal leaves the cells as they were.
#![tactic(auto, unfolding(crate::specs::Handed::refusal_in, crate::specs::Handed::told, crate::specs::Handed::told_found, crate::specs::Explanations::with_hit, crate::specs::Explanations::others_told))]

ghost use Rattle.std.specs.Prelude.{◌≡◌};
ghost use Rattle.refusals.specs.Answers.{tested};
ghost use Rattle.grounds.specs.Calls.{explained};
ghost use Rattle.handed.specs.Handed.{refusal_in, told, told_found, hit_distance, hit_kind, hit_stationary, hit_orbiting};
ghost use Rattle.handed.specs.Explanations.{hit_in, others_told, ground_in, near_in, between_in, far_in};

use grounds::Explanation;
use refusals::Refusal;

// The ground, the hit with the other pairs at its distance, and the hits too near, between and too far.
pub fn hand_explained(
    answer: Result<Explanation, Refusal>,
    ground: &mut u32,
    distance: &mut f64,
    kind: &mut u32,
    si: &mut u64,
    oi: &mut u64,
    others: &mut u64,
    near: &mut u64,
    between: &mut u64,
    far: &mut u64,
) -> Result<(), Refusal>
    ensures { (tested result ≡ refusal_in (explained answer))
        × (ground.new ≡ told ground_in (explained answer) ground.old)
        × (distance.new ≡ told_found hit_distance (hit_in (explained answer)) distance.old)
        × (kind.new ≡ told_found hit_kind (hit_in (explained answer)) kind.old)
        × (si.new ≡ told_found hit_stationary (hit_in (explained answer)) si.old)
        × (oi.new ≡ told_found hit_orbiting (hit_in (explained answer)) oi.old)
        × (others.new ≡ others_told (explained answer) others.old)
        × (near.new ≡ told near_in (explained answer) near.old)
        × (between.new ≡ told between_in (explained answer) between.old)
        × (far.new ≡ told far_in (explained answer) far.old) }
{
    let explanation = answer?;
    let tally = explanation.tally;
    *ground = explanation.ground.number();
    *near = tally.near;
    *between = tally.between;
    *far = tally.far;
    if let Some(hit) = tally.best {
        *distance = hit.distance;
        *kind = hit.kind as u32;
        *si = hit.stationary as u64;
        *oi = hit.orbiting as u64;
        *others = tally.others;
    }
    Ok(())
}
