//! Why bytes are no block.

ghost use Rattle.std.specs.Prelude.{◌≡◌};
ghost use Rattle.avm_block.specs.FaultNames.{block_fault_name};

use std::fmt;
use teal_value::Failure;
use thiserror::Error;

/// What is wrong with the bytes of a block. A block is read field by field, and the first fault counts.
#[derive(Clone, Copy, Debug, PartialEq, Eq, Error)]
pub enum BlockFault {
    /// The bytes don't begin with `AVMB`.
    Magic = 1,
    /// The number of the format is neither 1 nor 2.
    Format,
    /// The bytes end in a field.
    Truncated,
    /// Bytes stand behind the block.
    Rest,
    /// A timestamp isn't above the one before, or is 0.
    Order,
    /// A field has a value that none has.
    Field,
    /// The last digest isn't that of the bytes before it.
    Digest,
}

impl fmt::Display for BlockFault {
    fn fmt<W: fmt::Write>(&self, f: &mut fmt::Formatter<W>) -> fmt::Result {
        f.write_str(self.name())
    }
}

impl BlockFault {
    /// Its name, as commands print it.
    pub fn name(self) -> &'static str
        ensures { result.now ≡ block_fault_name self }
    {
        match self {
            BlockFault::Magic => "Magic",
            BlockFault::Format => "Format",
            BlockFault::Truncated => "Truncated",
            BlockFault::Rest => "Rest",
            BlockFault::Order => "Order",
            BlockFault::Field => "Field",
            BlockFault::Digest => "Digest",
        }
    }
}

/// A [`BlockFault`], or that memory ran out.
pub type BlockError = Failure<BlockFault>;
