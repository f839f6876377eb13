// The vectors along which the orbiting polygon can slide, written to lent rooms: `compute_translation_vectors` and `handle_perfect_fit` of
// `nfp_sliding.rs`.
#![tactic(auto)]

pub mod calls;
mod write;
