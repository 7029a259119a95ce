//! Steps into values.

/// A step from a value of a document into it.
#[derive(Clone, Copy, Debug)]
pub(crate) enum Step {
    /// To the member of this name.
    Name(&'static str),
    /// To the element at this index, counted from 0.
    Index(usize),
}
