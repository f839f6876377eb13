// What a trace comes to, or why it has no outline.
ghost use Rattle.std.specs.Prelude.{◌≡◌};
ghost use Rattle.refusals.specs.Answers.{tells};
ghost use Rattle.nfp_sliding.specs.Calls.{untraced, refusal_of};
ghost use Rattle.nfp_sliding.specs.declared.answer.Untraced.TheVariants.{Refused};

use refusals::Refusal;

// How many points the result and the path have, the passes begun and the reason it stopped.
#[derive(Clone, Copy)]
pub struct Trace {
    pub points: usize,
    pub stored: usize,
    pub passes: u64,
    pub stop: u32,
}

// Why there is no result.
#[derive(Clone, Copy)]
pub enum Untraced {
    // What is lent is refused.
    Refused(Refusal),
    // The path has more points than the work room, after so many passes.
    Full(u64),
    // The path has fewer than three points.
    Short { passes: u64, stop: u32 },
}

impl Untraced {
    // The refusal that it is.
    #[tactic(auto, unfolding(crate::specs::Calls::refusal_of))]
    pub fn refusal(self) -> Refusal
        ensures { tells result ≡ refusal_of (untraced self) }
    {
        match self {
            Untraced::Refused(refusal) => refusal,
            Untraced::Full(_) => Refusal::Fit,
            Untraced::Short { passes: _, stop: _ } => Refusal::ShortPath,
        }
    }
}

impl From<Refusal> for Untraced {
    ghost from_gives = { λ refusal untraced. untraced ≡ Refused refusal };

    fn from(refusal: Refusal) -> Untraced {
        Untraced::Refused(refusal)
    }
}
