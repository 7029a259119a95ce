//! What a row of the table says beside its code and name.

ghost use Rattle.std.specs.Prelude.{◌≡◌};

/// The version of a program, which its first varuint names. A program of version 2 has the rows of version 2 alone.
#[derive(Clone, Copy, Debug, PartialEq, Eq)]
pub enum Version {
    Two,
    Three,
}

impl Version {
    ghost use Rattle.teal_table.specs.Table.{has};

    /// Whether programs of this version have what the other version brought.
    pub fn has(self, since: Version) -> bool
        ensures { result ≡ has self since }
    {
        matches!(
            (self, since),
            (Version::Three, _) | (Version::Two, Version::Two)
        )
    }
}

/// The immediates of an opcode: what stands behind its code in the bytes of a program. One byte each where nothing else
/// is said.
#[derive(Clone, Copy, Debug, PartialEq, Eq)]
pub enum Shape {
    Nothing,
    /// An index of a constant, of a place of the scratch space, or of a value below the top.
    Index,
    /// A scalar field of the transaction.
    TxnField,
    /// A global field.
    GlobalField,
    /// A transaction of the group, and a scalar field of it.
    GroupField,
    /// An array field of the transaction, and an index in it.
    ArrayField,
    /// A transaction of the group, an array field of it, and an index in it.
    GroupArrayField,
    /// A scalar field of the transaction that the top of the stack names.
    StackField,
    /// An array field of the transaction that the top of the stack names, and an index in it.
    StackArrayField,
    /// The start and the end of a range of bytes.
    Bounds,
    /// The offset of a branch: two bytes, the high one first.
    Offset,
    /// A count, and that many numbers: varuints all.
    UintBlock,
    /// A count, and that many byte strings, each behind its length: varuints for the count and the lengths.
    ByteBlock,
    /// A varuint.
    Uint,
    /// A byte string behind its length, a varuint.
    Bytes,
}

/// The type of a value that an opcode takes from the stack or leaves on it.
#[derive(Clone, Copy, Debug, PartialEq, Eq)]
pub enum ValueKind {
    Uint,
    Bytes,
    Any,
}
