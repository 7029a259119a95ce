//! Stepping through a call's program, over the ledger that the call met, and looking at what stands there: whoever
//! disputes an outcome sees what each instruction did. What is shown is the definition of views (`avm_call`,
//! `specs/Views.antt`), which goes by the instruction table. The call of an entry of a block is opened over the ledger that
//! a replay of the entries before it leads to (`avm_replay`). It knows no store of versions.
//!
//! What is seen of a stepper is in `specs/Debugging.antt`, what a step does in `specs/DebugSteps.antt`.
#![tactic(auto)]

mod changes;
mod laws;
mod opening;
mod prepared;
mod scratch;
mod step_fault;
mod stepper;
mod stepping;
mod view;
mod viewing;
mod written_state;

pub use avm_block::{OpenError, OpenFault};
pub use laws::ledgers_before_are_replays;
pub use opening::entry_of;
pub use step_fault::{StepError, StepFault};
pub use stepper::Stepper;
pub use view::{
    KeyChange, LocalChange, MachineView, Next, ScratchPlace, View, ViewError, ViewFault,
};
