//! A debugger of calls, in a block or in a live store of versions: whoever disputes an outcome opens the call, steps through
//! its program (`avm_stepper`), and asks for ledgers of the past.
//!
//! What a debugger opens calls of is in `specs/Sources.antt`, what is seen of one in `specs/Debuggers.antt`.
#![tactic(auto)]

mod debugger;
mod faults;
mod laws;
mod live;
mod source;

pub use avm_stepper::{
    KeyChange, LocalChange, Next, OpenError, OpenFault, ScratchPlace, StepError, StepFault,
    Stepper, View, ViewError, ViewFault, ledgers_before_are_replays,
};
pub use debugger::Debugger;
pub use faults::{PastError, PastFault};
pub use laws::live_ledgers_before_are_replays;
pub use source::{Source, state_of};
