//! The refusal of a creation.

/// Every id has been given: the next one would be 2^64 - 1, which is none.
#[derive(Clone, Copy, Debug, PartialEq, Eq)]
pub enum IdsEnd {
    IdsEnd,
}
