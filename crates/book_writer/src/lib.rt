// The writer of the outline book: its public call, and the functions that test what it is lent and store the bytes.
#![tactic(auto)]

pub mod calls;
mod lent;
mod store;
