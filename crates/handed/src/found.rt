// Answers that may be nothing. Each function returns no refusal and writes to `found` 1 or 0, and what was found after it only where there is something;
// or it returns the refusal and leaves the cells as they were.
#![tactic(auto, unfolding(crate::specs::Handed::refusal_in, crate::specs::Handed::told, crate::specs::Handed::told_found, crate::specs::Handed::is_found))]

ghost use Rattle.std.specs.Prelude.{◌≡◌};
ghost use Rattle.refusals.specs.Answers.{answered, tested};
ghost use Rattle.handed.specs.Handed.{refusal_in, told, told_found, itself, is_found, x_of, y_of, hit_distance, hit_kind, hit_stationary, hit_orbiting};

use collision::Hit;
use plane::Point;
use refusals::Refusal;

// The index of a vector, or nothing.
pub fn hand_selected(
    answer: Result<Option<usize>, Refusal>,
    found: &mut u32,
    index: &mut u64,
) -> Result<(), Refusal>
    ensures { (tested result ≡ refusal_in (answered answer))
        × (found.new ≡ told is_found (answered answer) found.old)
        × (index.new ≡ told_found itself (answered answer) index.old) }
{
    match answer? {
        None => *found = 0,
        Some(i) => {
            *found = 1;
            *index = i as u64;
        }
    }
    Ok(())
}

// A position, or nothing.
pub fn hand_position(
    answer: Result<Option<Point>, Refusal>,
    found: &mut u32,
    x: &mut f64,
    y: &mut f64,
) -> Result<(), Refusal>
    ensures { (tested result ≡ refusal_in (answered answer))
        × (found.new ≡ told is_found (answered answer) found.old)
        × (x.new ≡ told_found x_of (answered answer) x.old)
        × (y.new ≡ told_found y_of (answered answer) y.old) }
{
    match answer? {
        None => *found = 0,
        Some(p) => {
            *found = 1;
            *x = p.x;
            *y = p.y;
        }
    }
    Ok(())
}

// What a move runs into, or nothing: the hit's distance, its kind and both indices.
pub fn hand_checked(
    answer: Result<Option<Hit>, Refusal>,
    found: &mut u32,
    distance: &mut f64,
    kind: &mut u32,
    si: &mut u64,
    oi: &mut u64,
) -> Result<(), Refusal>
    ensures { (tested result ≡ refusal_in (answered answer))
        × (found.new ≡ told is_found (answered answer) found.old)
        × (distance.new ≡ told_found hit_distance (answered answer) distance.old)
        × (kind.new ≡ told_found hit_kind (answered answer) kind.old)
        × (si.new ≡ told_found hit_stationary (answered answer) si.old)
        × (oi.new ≡ told_found hit_orbiting (answered answer) oi.old) }
{
    match answer? {
        None => *found = 0,
        Some(hit) => {
            *found = 1;
            *distance = hit.distance;
            *kind = hit.kind as u32;
            *si = hit.stationary as u64;
            *oi = hit.orbiting as u64;
        }
    }
    Ok(())
}
