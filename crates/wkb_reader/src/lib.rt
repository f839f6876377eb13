// The reader of drawings in well-known binary.
#![tactic(auto)]

pub mod calls;
mod check;
mod load;
