// The public call: mend_ring.
#![tactic(auto, using(refusals::proofs::Tests::refused, crate::proofs::Screened::lent_is), unfolding(crate::specs::Calls::mend_refusal))]

ghost use Rattle.std.specs.Prelude.{◌≡◌, length};
ghost use Rattle.refusals.specs.Answers.{answered};
ghost use Rattle.mending.specs.Calls.{mend_call, mend_room, mend_dropped, mend_points};

use crate::answer::Sizes;
use crate::row;
use crate::write::answer;
use refusals::Refusal;

// The ring mended in the room; per dropped vertex its old index and why in `dropped`, x and y in `points`: how many remain, and how many went.
pub fn mend_ring(
    ring: &[f64],
    room: &mut [f64],
    dropped: &mut [u64],
    points: &mut [f64],
) -> Result<Sizes, Refusal>
    ensures { (answered result ≡ mend_call ring.now (length room.old) (length dropped.old)
        (length points.old))
        × (room.new ≡ mend_room ring.now room.old dropped.old points.old)
        × (dropped.new ≡ mend_dropped ring.now room.old dropped.old points.old)
        × (points.new ≡ mend_points ring.now room.old dropped.old points.old) }
{
    row::mendable(ring)?;
    answer(ring, room, dropped, points)
}
