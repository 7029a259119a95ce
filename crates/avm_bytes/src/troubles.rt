//! What is wrong with bytes, as C is told it.

ghost use Rattle.std.specs.Prelude.{◌≡◌};
ghost use Rattle.avm_bytes.specs.Troubles.{IsToldTrouble, refused_for, told_trouble, trouble_at};

use crate::statuses::Status;

/// What is wrong with bytes, and where: `struct avm_trouble`. Fields of which a fault says nothing are 0.
#[repr(C)]
#[derive(Clone, Copy)]
pub struct Trouble {
    /// The line of a text or the number of a call, both counted from 1; or the place in a program, in bytes from its beginning.
    pub place: u64,
    /// The number of the fault.
    pub number: u32,
    /// The number of the fault of reading an instruction, or 0.
    pub code: u32,
}

/// Why bytes are not what they are taken for: a status, and what is wrong.
#[derive(Clone, Copy)]
pub struct Refused {
    pub status: Status,
    pub trouble: Trouble,
}

/// A fault of this number, at this place.
pub fn trouble_at(place: u64, number: u32) -> Trouble
    ensures { result ≡ trouble_at place number }
{
    Trouble {
        place,
        number,
        code: 0,
    }
}

/// That bytes are refused for a fault of this number, which has no place.
pub fn refused_for(status: Status, number: u32) -> Refused
    ensures { result ≡ refused_for status number }
{
    Refused {
        status,
        trouble: trouble_at(0, number),
    }
}

/// Tells C what is wrong, where something is.
pub fn write_trouble(found: Option<Refused>, trouble: &mut Trouble) -> u32
    ensures { IsToldTrouble found trouble.old trouble.new result }
{
    match found {
        Some(found) => {
            *trouble = found.trouble;
            found.status.number()
        }
        None => Status::Done.number(),
    }
}

/// Tells C a trouble without its status, where there is one.
pub fn tell_trouble(found: Option<Trouble>, trouble: &mut Trouble)
    ensures { trouble.new ≡ told_trouble trouble.old found }
{
    if let Some(found) = found {
        *trouble = found;
    }
}
