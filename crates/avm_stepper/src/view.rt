//! What a debugger shows.

ghost use Rattle.std.specs.Prelude.{◌≡◌};
ghost use Rattle.avm_stepper.specs.FaultNames.{view_fault_name};

use teal_code::Instr;
use teal_value::{Address, ByteString, Failure, Fault, StateKey, Value};
use thiserror::Error;

/// What comes next.
#[derive(Drop)]
pub enum Next<'a> {
    /// This instruction.
    Instruction(&'a Instr),
    /// Nothing: the instruction that stands there has faulted.
    Fault(Fault),
    /// Nothing: the program has come to its end.
    End,
}

/// A place of the scratch space that is not the uint 0.
#[derive(Drop)]
pub struct ScratchPlace {
    pub index: u8,
    pub value: Value,
}

/// A key of a state whose value has changed.
#[derive(Drop)]
pub struct KeyChange {
    pub key: StateKey,
    /// Its value now, if it has one.
    pub now: Option<Value>,
}

/// A key of an account's local state whose value has changed.
#[derive(Drop)]
pub struct LocalChange {
    pub account: Address,
    pub key: StateKey,
    /// Its value now, if it has one.
    pub now: Option<Value>,
}

/// What the machine holds at a place of a program, before the instruction that comes next.
#[derive(Drop)]
pub struct MachineView<'a> {
    /// The place of the next instruction, of the one that has faulted, or the program's length at its end.
    pub place: u16,
    pub next: Next<'a>,
    /// The values on the stack, the top last.
    pub stack: &'a [Value],
    /// By rising index.
    pub scratch: Vec<ScratchPlace>,
}

/// What stands at a place of a program, before the instruction that comes next.
#[derive(Drop)]
pub struct View<'a> {
    /// The place of the next instruction, of the one that has faulted, or the program's length at its end.
    pub place: u16,
    pub next: Next<'a>,
    /// The values on the stack, the top last.
    pub stack: &'a [Value],
    /// By rising index.
    pub scratch: Vec<ScratchPlace>,
    /// The uint constants in force.
    pub uint_constants: &'a [u64],
    /// The byte constants in force.
    pub byte_constants: &'a [ByteString],
    /// The changes of this application's global state since the program began, by rising key.
    pub global_changes: Vec<KeyChange>,
    /// Those of its local states, by rising address and key.
    pub local_changes: Vec<LocalChange>,
}

/// Why nothing is shown.
#[derive(Clone, Copy, Debug, PartialEq, Eq, Error)]
#[error("{name}", name = self.name())]
pub enum ViewFault {
    /// A step before was refused memory.
    Spent = 6,
}

impl ViewFault {
    /// Its name.
    pub fn name(self) -> &'static str
        ensures { result.now ≡ view_fault_name self }
    {
        match self {
            ViewFault::Spent => "Spent",
        }
    }
}

/// A [`ViewFault`], or that memory ran out.
pub type ViewError = Failure<ViewFault>;
