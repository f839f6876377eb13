// The exported functions: what a layout program links and calls as C. All but the scalars return 0 or the refusal's number.
#![tactic(auto)]

pub mod book;
pub mod clear;
pub mod disc;
pub mod drawing;
pub mod grid;
pub mod path;
pub mod places;
pub mod rings;
pub mod scalars;
pub mod sliding;
pub mod version;
pub mod whole;
pub mod wkb;
