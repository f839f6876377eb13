// The contacts of two polygons, written to lent rooms: `find_contacts` of `nfp_sliding.rs`.
#![tactic(auto)]

pub mod calls;
mod write;
