// The run of the passes: the loop of `trace_nfp_boundary` of `nfp_sliding.rs`, and the test by which it knows that nothing more changes.
#![tactic(auto)]

pub mod run;
mod still;
