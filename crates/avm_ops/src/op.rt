//! Instructions as objects.

ghost use Rattle.std.specs.Prelude.{◌≡◌, Err};
ghost use Rattle.teal_table.specs.declared.opcode.Opcode.{Opcode};
ghost use Rattle.teal_value.specs.declared.value.Value.TheVariants.{Uint};
ghost use Rattle.teal_table.specs.Table.{code_of};
ghost use Rattle.avm_ops.specs.Frame.{flag};
ghost use Rattle.avm_ops.specs.declared.op.Stop.TheVariants as stop;
ghost use Rattle.avm_ops.specs.Objects.{CarriesOut, Does, IfHeld, IfStopped, IsControl, IsReady, context_of, known_effect};

use avm_cpu::{Cpu, Flow};
use avm_items::{Env, Item};
use std::alloc::{AllocError, Global};
use teal_code::Instr;
use teal_value::{Failure, Fault};

/// Why an instruction was not carried out.
#[derive(Debug, Drop)]
pub enum Stop {
    /// It faults.
    Fault(Fault),
    /// It asks for an item that is not known. The item lies in a box: an answer is made at each instruction, and is to be a
    /// few words.
    Need(Box<Item>),
    /// Memory was refused.
    Memory,
}

impl From<Fault> for Stop {
    ghost use Rattle.avm_ops.specs.declared.op.Stop.TheVariants as stop;

    ghost from_gives = { λ fault s. s ≡ stop.Fault fault };

    fn from(fault: Fault) -> Stop {
        Stop::Fault(fault)
    }
}

impl From<AllocError> for Stop {
    ghost use Rattle.avm_ops.specs.declared.op.Stop.TheVariants as stop;

    ghost from_gives = { λ _ s. s ≡ stop.Memory };

    fn from(_: AllocError) -> Stop {
        Stop::Memory
    }
}

impl From<Failure<Fault>> for Stop {
    ghost use Rattle.avm_ops.specs.Objects.{stop_of};

    ghost from_gives = { λ failure s. s ≡ stop_of failure };

    fn from(failure: Failure<Fault>) -> Stop {
        match failure {
            Failure::Memory => Stop::Memory,
            Failure::Fault(fault) => Stop::Fault(fault),
        }
    }
}

/// The number that the machine has for a truth value: 1 for true, 0 for false.
pub fn flag(holds: bool) -> u64
    ensures { Uint result ≡ flag holds }
{
    if holds { 1 } else { 0 }
}

/// What an instruction comes to: where the program goes on, or why it was not carried out.
pub type Executed = Result<Flow, Stop>;

/// The way on from an instruction, in two registers. Who runs a program asks for it at each instruction; an [`Executed`]
/// would be written to memory, and read there again.
#[derive(Debug, Drop)]
pub enum Control {
    /// The program goes on to the instruction behind this one.
    Next,
    /// It goes on to the target of the branch.
    Jump,
    /// It goes on to its end.
    End,
    /// It faults. The fault lies in a box, so that one word holds what goes with an answer, whichever it is.
    Fault(Box<Fault>),
    /// It asks for an item that is not known.
    Need(Box<Item>),
    /// Memory was refused.
    Memory,
}

impl Control {
    /// The way on from what was executed.
    #[inline(always)]
    pub fn of(alloc: Global, executed: Executed) -> Control
        ensures { IsControl executed result }
    {
        match executed {
            Ok(Flow::Next) => Control::Next,
            Ok(Flow::Jump(_)) => Control::Jump,
            Ok(Flow::End) => Control::End,
            Err(Stop::Fault(fault)) => faulted(alloc, fault),
            Err(Stop::Need(item)) => Control::Need(item),
            Err(Stop::Memory) => Control::Memory,
        }
    }
}

/// A fault in its box. It is out of line, since it ends a program.
#[cold]
#[inline(never)]
fn faulted(alloc: Global, fault: Fault) -> Control
    ensures { IsControl (Err (stop.Fault fault)) result }
{
    match Box::new(alloc, fault) {
        Ok(fault) => Control::Fault(fault),
        Err(_refused) => Control::Memory,
    }
}

/// An object that carries out the instructions of one opcode. Whoever runs programs knows instructions by this alone.
pub trait Op: Send + Drop {
    /// The opcode.
    ghost opcode: { Self → Opcode };

    /// The byte of the opcode.
    fn code(&self) -> u8
        ensures { result ≡ code_of (opcode self.now) };

    /// Carries out an instruction of the opcode, over what the call knows.
    ///
    /// A branch has to lead to a place of at most 1024, the longest program. `Memory` is answered only where a growth
    /// was refused; the machine and the call's writes may be changed then.
    fn exec(&self, alloc: Global, instr: &Instr, cpu: &mut Cpu, env: &mut Env) -> Executed
        requires opcode { instr.now.opcode ≡ opcode self.now }
        requires ready { IsReady cpu.old.place (opcode self.now) instr.now.immediates }
        // What the opcode table says: the flow, the machine and the writes; or the fault; or the first item that isn't known.
        ensures row { Does result cpu.new env.new
            (known_effect cpu.old env.old (opcode self.now) instr.now.immediates) }
        // Only writes change in what the call knows.
        ensures writes { env.new ≡ record env.old { writes = env.new.writes } }
        // At a fault, and at an item that isn't known, nothing changes.
        ensures unchanged { IfStopped result ((cpu.new ≡ cpu.old) × (env.new ≡ env.old)) };

    /// Carries out an instruction as [`Op::exec`] does, and answers the way on. A fault is answered as `Memory` where there is
    /// no memory for its box.
    fn carry_out(&self, alloc: Global, instr: &Instr, cpu: &mut Cpu, env: &mut Env) -> Control
        requires opcode { instr.now.opcode ≡ opcode self.now }
        requires ready { IsReady cpu.old.place (opcode self.now) instr.now.immediates }
        ensures row { CarriesOut result cpu.new env.new
            (known_effect cpu.old env.old (opcode self.now) instr.now.immediates) }
        ensures writes { env.new ≡ record env.old { writes = env.new.writes } }
        ensures unchanged { IfHeld result ((cpu.new ≡ cpu.old) × (env.new ≡ env.old)) }
    {
        Control::of(alloc, self.exec(alloc, instr, cpu, env))
    }
}

/// An object in a box.
#[derive(Drop)]
pub struct BoxedOp {
    pub op: Box<dyn Op>,
}

impl Op for BoxedOp {
    ghost opcode = { λ b. (Op-box b.op).opcode b.op.value };

    fn code(&self) -> u8 {
        self.op.code()
    }

    fn exec(&self, alloc: Global, instr: &Instr, cpu: &mut Cpu, env: &mut Env) -> Executed {
        self.op.exec(alloc, instr, cpu, env)
    }

    fn carry_out(&self, alloc: Global, instr: &Instr, cpu: &mut Cpu, env: &mut Env) -> Control {
        self.op.carry_out(alloc, instr, cpu, env)
    }
}
