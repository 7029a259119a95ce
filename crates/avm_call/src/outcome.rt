//! How programs and calls end.

ghost use Rattle.std.specs.Prelude.{◌≡◌, ◌↔◌, IsTrue};
ghost use Rattle.teal_value.specs.FaultNumbers.{numbered};
ghost use Rattle.avm_call.specs.FaultNames.{why_name};
ghost use Rattle.avm_call.specs.OutcomeEncoding.{why_number, whys};

use teal_value::Fault;

/// How a program ends. A fault names the place of its instruction, or the program's length where the program's end has
/// it.
#[derive(Clone, Copy, Debug, PartialEq, Eq)]
pub enum Ended {
    Approved,
    Rejected,
    Faulted(Fault, u16),
}

/// Why a call is refused before its program runs, by its number in the bytes of outcomes.
#[derive(Clone, Copy, Debug, PartialEq, Eq)]
pub enum Why {
    /// The application is gone.
    NoApp = 1,
    /// The sender is opted in already.
    AlreadyIn,
    /// The sender isn't opted in.
    NotIn,
    /// No id is left for a creation.
    IdsEnd,
}

impl Why {
    /// Its number in the bytes of outcomes.
    pub fn number(self) -> u8
        ensures { result ≡ why_number self }
    {
        match self {
            Why::NoApp => 1,
            Why::AlreadyIn => 2,
            Why::NotIn => 3,
            Why::IdsEnd => 4,
        }
    }

    /// The reason of this number in the bytes of outcomes.
    pub fn numbered(number: u8) -> Option<Why>
        ensures { result ≡ numbered why_number number whys }
    {
        match number {
            1 => Some(Why::NoApp),
            2 => Some(Why::AlreadyIn),
            3 => Some(Why::NotIn),
            4 => Some(Why::IdsEnd),
            _ => None,
        }
    }

    /// Its name, as commands print it.
    pub fn name(self) -> &'static str
        ensures { result.now ≡ why_name self }
    {
        match self {
            Why::NoApp => "NoApp",
            Why::AlreadyIn => "AlreadyIn",
            Why::NotIn => "NotIn",
            Why::IdsEnd => "IdsEnd",
        }
    }
}

/// Why a local state was cleared without approval.
#[derive(Clone, Copy, Debug, PartialEq, Eq)]
pub enum Cause {
    /// The application is gone.
    Gone,
    /// The clear state program rejected.
    Rejected,
    /// The clear state program faulted.
    Faulted(Fault, u16),
}

/// How a call ends.
#[derive(Clone, Copy, Debug, PartialEq, Eq)]
pub enum Outcome {
    Approved,
    Rejected,
    Faulted(Fault, u16),
    /// No program ran.
    Refused(Why),
    /// The sender's local state was removed, and nothing else changed.
    ClearedAnyway(Cause),
}

/// Whether two calls ended alike.
pub fn is_same_outcome(outcome: Outcome, other: Outcome) -> bool
    ensures { IsTrue result ↔ (outcome ≡ other) }
{
    outcome == other
}
