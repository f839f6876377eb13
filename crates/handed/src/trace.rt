// The answer of a trace: the counts, the passes and the stop reason, of which the passes are told with refusal 5, and both the last with 6.
#![tactic(auto, unfolding(nfp_sliding::specs::Calls::refusal_of, crate::specs::Traces::points_told, crate::specs::Traces::stored_told, crate::specs::Traces::passes_told, crate::specs::Traces::stop_told))]

ghost use Rattle.std.specs.Prelude.{◌≡◌};
ghost use Rattle.refusals.specs.Answers.{tested};
ghost use Rattle.nfp_sliding.specs.Calls.{traced, refusal_of};
ghost use Rattle.handed.specs.Traces.{points_told, stored_told, passes_told, stop_told};

use nfp_sliding::answer::{Trace, Untraced};
use refusals::Refusal;

// The counts of result and path, the passes and the stop reason.
pub fn hand_traced(
    answer: Result<Trace, Untraced>,
    points: &mut u64,
    stored: &mut u64,
    passes: &mut u64,
    stop: &mut u32,
) -> Result<(), Refusal>
    ensures { (tested result ≡ refusal_of (traced answer))
        × (points.new ≡ points_told (traced answer) points.old)
        × (stored.new ≡ stored_told (traced answer) stored.old)
        × (passes.new ≡ passes_told (traced answer) passes.old)
        × (stop.new ≡ stop_told (traced answer) stop.old) }
{
    match answer {
        Ok(trace) => {
            *points = trace.points as u64;
            *stored = trace.stored as u64;
            *passes = trace.passes;
            *stop = trace.stop;
            Ok(())
        }
        Err(untraced) => {
            match untraced {
                Untraced::Refused(_) => {}
                Untraced::Full(begun) => *passes = begun,
                Untraced::Short {
                    passes: spent,
                    stop: why,
                } => {
                    *passes = spent;
                    *stop = why;
                }
            }
            Err(untraced.refusal())
        }
    }
}
