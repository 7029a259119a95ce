//! How a call ends, as C is told it.

ghost use Rattle.std.specs.Prelude.{◌≡◌};
ghost use Rattle.teal_value.specs.FaultNumbers.{fault_number};
ghost use Rattle.avm_bytes.specs.Ends.{end_of};

use avm_call::{Cause, Outcome};
use teal_value::Fault;

/// How a call ends: `struct avm_end`. Fields of which an ending says nothing are 0.
#[repr(C)]
#[derive(Clone, Copy)]
pub struct End {
    /// A number of `enum avm_ending`.
    pub ending: u32,
    /// The number of the fault or of the reason in the bytes of outcomes, or 0. Where the bytes are no call, why.
    pub number: u32,
    /// The place of the instruction that faulted, in bytes from the program's beginning, or 0.
    pub place: u32,
}

/// How a call with this outcome ends, in numbers.
pub fn end_of(found: Outcome) -> End
    ensures { result ≡ end_of found }
{
    match found {
        Outcome::Approved => plain(0),
        Outcome::Rejected => plain(1),
        Outcome::Faulted(fault, place) => faulted(2, fault, place),
        Outcome::Refused(why) => End {
            ending: 3,
            number: u32::from(why.number()),
            place: 0,
        },
        Outcome::ClearedAnyway(Cause::Gone) => plain(4),
        Outcome::ClearedAnyway(Cause::Rejected) => plain(5),
        Outcome::ClearedAnyway(Cause::Faulted(fault, place)) => faulted(6, fault, place),
    }
}

fn plain(ending: u32) -> End
    ensures { result ≡ record { ending = ending; number = 0; place = 0 } }
{
    End {
        ending,
        number: 0,
        place: 0,
    }
}

fn faulted(ending: u32, fault: Fault, place: u16) -> End
    ensures { result ≡ record { ending = ending; number = fault_number fault; place = place } }
{
    End {
        ending,
        number: u32::from(fault.number()),
        place: u32::from(place),
    }
}
