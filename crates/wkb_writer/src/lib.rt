// The writer of drawings in well-known binary.
#![tactic(auto)]

pub mod calls;
mod store;
