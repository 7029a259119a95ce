//! Whether a copy was pushed.

ghost use Rattle.std.specs.Prelude.{◌≡◌, Err, IfErr, IfOk, IsOk};
ghost use Rattle.teal_value.specs.declared.failure.Failure.TheVariants as failure;
ghost use Rattle.avm_cpu.specs.Copies.{pushed};

use teal_value::{Failure, Fault};

/// Whether a copy was pushed. It is a `Result` that two registers hold: who pushes copies out of line has no room to make for
/// the answer.
#[derive(Clone, Copy, Debug, PartialEq, Eq)]
pub enum Push {
    /// It was.
    Done,
    /// The instruction faults.
    Fault(Fault),
    /// Memory was refused.
    Memory,
}

impl Push {
    /// What a push leads to that wants no memory.
    pub(crate) fn of(push: Result<(), Fault>) -> Push
        ensures ok { IfOk push (λ _. IsOk (pushed result)) }
        ensures fault { IfErr push (λ f. pushed result ≡ Err (failure.Fault f)) }
    {
        match push {
            Ok(()) => Push::Done,
            Err(fault) => Push::Fault(fault),
        }
    }

    /// The same as a `Result`.
    #[inline(always)]
    pub fn result(self) -> Result<(), Failure<Fault>>
        ensures { result ≡ pushed self }
    {
        match self {
            Push::Done => Ok(()),
            Push::Fault(fault) => Err(Failure::Fault(fault)),
            Push::Memory => Err(Failure::Memory),
        }
    }
}
