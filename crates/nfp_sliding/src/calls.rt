// The public call: compute_nfp_sliding.
#![tactic(auto, using(refusals::proofs::Tests::refused))]

ghost use Rattle.std.specs.Prelude.{◌≡◌, length};
ghost use Rattle.nfp_sliding.specs.Calls.{traced, trace_call, trace_work, trace_result};

use crate::answer::{Trace, Untraced};
use crate::trace::{finish, trace};
use refusals::{Settings, row};

// The path of the orbiting polygon around the stationary one: in the work room as it was traced, in the result room simplified. The path is in the work
// room too where it does not fit it or has fewer than three points.
pub fn compute_nfp_sliding(
    stationary: &[f64],
    orbiting: &[f64],
    settings: Settings,
    work: &mut [f64],
    res: &mut [f64],
) -> Result<Trace, Untraced>
    ensures { (traced result ≡ trace_call stationary.now orbiting.now settings (length work.old)
        (length res.old))
        × (work.new ≡ trace_work stationary.now orbiting.now settings work.old
        (length res.old))
        × (res.new ≡ trace_result stationary.now orbiting.now settings (length work.old)
        res.old) }
{
    row::tracing(stationary, orbiting, settings, work.len(), res.len())?;
    let end = trace(stationary, orbiting, settings, work);
    finish(end, settings.contact_tolerance, work, res)
}
