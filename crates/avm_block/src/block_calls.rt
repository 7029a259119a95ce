//! Why calls make no block.

ghost use Rattle.std.specs.Prelude.{◌≡◌};
ghost use Rattle.avm_block.specs.CallsFaults.{calls_fault, calls_fault_name, calls_fault_number};

use crate::accepted_calls::first_beyond;
use crate::block::MAX_ENTRIES;
use avm_call::Call;
use avm_ledger::Header;
use teal_value::Failure;
use thiserror::Error;

/// Why calls make no block under a header, in the order of the tests.
#[derive(Clone, Copy, Debug, PartialEq, Eq, Error)]
#[error("{name}", name = self.name())]
pub enum CallsFault {
    /// There are more calls than a block has entries.
    TooMany,
    /// The call of this number, counted from 1, needs a newer profile than the header's: the first such call.
    Profile { number: u32 },
}

impl CallsFault {
    /// Its number, from 1.
    pub fn number(self) -> u8
        ensures { result ≡ calls_fault_number self }
    {
        match self {
            CallsFault::TooMany => 1,
            CallsFault::Profile { .. } => 2,
        }
    }

    /// Its name.
    pub fn name(self) -> &'static str
        ensures { result.now ≡ calls_fault_name self }
    {
        match self {
            CallsFault::TooMany => "TooMany",
            CallsFault::Profile { .. } => "Profile",
        }
    }
}

/// A [`CallsFault`], or that memory ran out.
pub type CallsError = Failure<CallsFault>;

/// Why these calls make no block under a header, if they make none.
pub fn calls_fault(header: &Header, calls: &[Call]) -> Option<CallsFault>
    ensures { result ≡ calls_fault header.now calls.now }
{
    if calls.len() > MAX_ENTRIES {
        return Some(CallsFault::TooMany);
    }
    match first_beyond(header.profile, calls) {
        Some(number) => Some(CallsFault::Profile { number }),
        None => None,
    }
}
