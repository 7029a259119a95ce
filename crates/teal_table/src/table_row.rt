//! A row of the opcode table.

use crate::opcode::Opcode;
use crate::shape::{Shape, ValueKind, Version};

/// What the table says of an opcode.
#[derive(Clone, Copy, Debug)]
pub struct Row {
    pub opcode: Opcode,
    /// Its byte in a program.
    pub code: u8,
    /// Its name in source text.
    pub name: &'static str,
    pub immediates: Shape,
    /// What it adds to a program's cost, executed or not.
    pub cost: u8,
    /// The version of programs that it came with.
    pub version: Version,
    /// The types of its operands, the deepest first.
    pub pops: &'static [ValueKind],
    /// The types of what it leaves in their place, the deepest first.
    pub pushes: &'static [ValueKind],
}
