//! What a replay finds, as C is told it.

ghost use Rattle.std.specs.Prelude.{◌≡◌};
ghost use Rattle.avm_bytes.specs.Findings.{IsWrittenFinding, difference_of};

use crate::ends::end_of;
use crate::statuses::Status;
use avm_call::Outcome;

/// The first entry of a block whose call ends otherwise than the entry says, and how it ends: `struct avm_difference`.
#[repr(C)]
#[derive(Clone, Copy)]
pub struct Difference {
    /// The entry's number, counted from 1.
    pub entry: u64,
    /// How the call ends: a number of `enum avm_ending`.
    pub ending: u32,
    /// The number of the fault or of the reason in the bytes of outcomes, or 0.
    pub number: u32,
    /// The place of the instruction that faulted, in bytes from the program's beginning, or 0.
    pub place: u32,
}

/// What a replay finds.
#[derive(Clone, Copy)]
pub enum Finding {
    /// The block agrees, and this is the digest of the ledger after it.
    Agrees([u8; 32]),
    /// An entry's call ends otherwise than the entry says.
    Differs(Difference),
    /// Another verdict, or bytes that are no ledger or no block.
    Other(Status),
}

/// Tells C what was found. What it does not name stays as it was.
pub fn write_finding(finding: Finding, digest: &mut [u8; 32], difference: &mut Difference) -> u32
    ensures { IsWrittenFinding finding digest.old digest.new difference.old difference.new result }
{
    match finding {
        Finding::Agrees(after) => {
            *digest = after;
            Status::Done.number()
        }
        Finding::Differs(found) => {
            *difference = found;
            Status::WrongOutcome.number()
        }
        Finding::Other(why) => why.number(),
    }
}

/// How the call of an entry ends, in numbers.
pub fn difference_of(entry: usize, found: Outcome) -> Difference
    ensures { result ≡ difference_of entry found }
{
    let end = end_of(found);
    Difference {
        entry: entry as u64,
        ending: end.ending,
        number: end.number,
        place: end.place,
    }
}
