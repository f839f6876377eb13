// The sliding no-fit polygon: `compute_nfp_sliding` of `nfp_sliding.rs`.
#![tactic(auto)]

pub mod answer;
pub mod calls;
pub mod trace;
