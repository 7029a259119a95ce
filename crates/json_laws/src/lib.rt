//! What holds of the JSON that is shown and read. Each law is the contract of a function without work.
#![tactic(auto)]

pub mod accepted;
pub mod paths;
pub mod reading_back;
