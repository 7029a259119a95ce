//! What the library for C answers, over bytes: each question of a caller, and its answer as bytes, a status and numbers.
//! `avm_c` has the exports.
//!
//! `specs/Statuses.antt` has the numbers of statuses, `specs/Answers.antt` what a caller finds in the room that it lends,
//! and the other definitions say which answer it is, in the words of the commands' own contracts.
#![tactic(auto)]

pub mod answers;
pub mod applied;
pub mod attempts;
pub mod blocks;
pub mod calls;
pub mod diagnoses;
pub mod ends;
pub mod findings;
pub mod listed_calls;
pub mod programs;
pub mod proposals;
pub mod questions;
pub mod statuses;
pub mod traces;
pub mod troubles;
pub mod views;
pub mod words;
