// Answers handed over to a C caller: through pointers where the call answers, and as the refusal's number and place where it does not.
#![tactic(auto)]

pub mod clear;
pub mod explained;
pub mod found;
pub mod mended;
pub mod places;
pub mod refusal;
pub mod trace;
pub mod value;
pub mod verdict;
pub mod whole;
