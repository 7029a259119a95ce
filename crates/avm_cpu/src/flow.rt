//! Where a run goes after an instruction.

/// Where a run goes after an instruction.
#[derive(Clone, Copy, Debug, PartialEq, Eq)]
pub enum Flow {
    /// To the instruction behind this one.
    Next,
    /// To the target of a branch, a place in the program's bytes.
    Jump(u16),
    /// To the end of the program.
    End,
}
