//! Instructions.

ghost use Rattle.std.specs.Prelude.{◌≡◌};
ghost use Rattle.teal_table.specs.Table.{code_of};

use teal_table::Opcode;
use teal_value::{ByteString, ByteStrings, Uints};

/// What stands behind an opcode, by value. The opcode's row says which of these it is, and what it means there.
#[derive(Debug)]
pub enum Immediates {
    Nothing,
    Index(u8),
    /// A field.
    Field(u8),
    /// A transaction of the group, and a field.
    GroupField(u8, u8),
    /// A field, and an index in it.
    ArrayField(u8, u8),
    /// A transaction of the group, a field, and an index in it.
    GroupArrayField(u8, u8, u8),
    /// A start and an end.
    Bounds(u8, u8),
    /// The distance from the end of a branch to its target, in bytes.
    Offset(u16),
    UintBlock(Uints),
    ByteBlock(ByteStrings),
    Uint(u64),
    Bytes(ByteString),
}

/// Written out, so that whoever owns one drops it by one call and not part by part.
impl Drop for Immediates {
    #[inline]
    fn drop(self) {
        match self {
            Immediates::Nothing
            | Immediates::Index(_)
            | Immediates::Field(_)
            | Immediates::GroupField(_, _)
            | Immediates::ArrayField(_, _)
            | Immediates::GroupArrayField(_, _, _)
            | Immediates::Bounds(_, _)
            | Immediates::Offset(_)
            | Immediates::UintBlock(_)
            | Immediates::ByteBlock(_)
            | Immediates::Uint(_)
            | Immediates::Bytes(_) => {}
        }
    }
}

/// One instruction of a program.
#[derive(Debug, Drop)]
pub struct Instr {
    pub opcode: Opcode,
    pub immediates: Immediates,
}

impl Instr {
    /// The byte of its opcode.
    pub fn code(&self) -> u8
        ensures { result ≡ code_of self.now.opcode }
    {
        self.opcode.code()
    }
}
