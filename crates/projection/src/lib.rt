// A point against a segment, as `nfp_sliding.rs` works it out: the public calls over `plane::segment`, and where a foot sits.
#![tactic(auto)]

pub mod answer;
pub mod calls;
pub mod foot;
