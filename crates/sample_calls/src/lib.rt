//! What the rows of the test programs have in common: programs by name, which are assembled from their sources, calls by words, and
//! bytes in pieces.
#![tactic(auto)]

pub mod calls;
pub mod programs;
pub mod words;
