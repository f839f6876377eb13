// The reader of the outline book: its public call, and the functions that check a file and load what it holds.
#![tactic(auto)]

pub mod calls;
mod check;
mod load;
mod tail;
