//! Calls that are stepped through.

ghost use Rattle.std.specs.Prelude.{◌≡◌, IfErr, IfOk, None, Some};
ghost use Rattle.std.specs.Option.{option_copied};
ghost use Rattle.avm_stepper.specs.DebugSteps.{StepsTo};
ghost use Rattle.avm_stepper.specs.Shown.{IsLedgerOf, IsMachineShown, IsProgramShown, IsShown};
ghost use Rattle.avm_stepper.specs.Opening.{HasProgram, IsDebugRefusal, IsOpened, IsStartRefusal};

use crate::opening::{entry_of, ledger_before, start_over};
use crate::prepared::writes_of;
use crate::step_fault::{StepError, StepFault};
use crate::stepping::{comes_next, step_over};
use crate::view::{MachineView, View, ViewError, ViewFault};
use crate::viewing::{machine_at, view_at};
use avm_block::{Block, OpenError, OpenFault};
use avm_call::Call;
use avm_items::ItemMap;
use avm_ledger::{Base, Header, Ledger};
use avm_ops::Op;
use avm_run::{CallRun, FullOps};
use std::alloc::{AllocError, Global};
use std::marker::Model;
use teal_check::Program;
use teal_value::{Failure, Fault};

/// A call that is stepped through over the ledger that it met, which contracts see as that ledger, the call and its
/// header with the steps made; as none where it is spent.
pub struct Stepper {
    ledger: Ledger,
    /// What the call has written before its program.
    prepared: ItemMap,
    /// The run of the call, which is let go where memory is refused.
    run: Option<CallRun>,
    /// The fault of the step behind those made, where it was tried.
    fault: Option<Fault>,
}

/// Written out, so that whoever owns one drops it by one call and not part by part.
impl Drop for Stepper {
    #[inline]
    fn drop(self) {
        let Stepper {
            ledger: _,
            prepared: _,
            run: _,
            fault: _,
        } = self;
    }
}

impl Model for Stepper {
    ghost use Rattle.std.specs.Prelude.{Option};
    ghost use Rattle.avm_stepper.specs.Debugging.{Debugged};
    ghost use Rattle.avm_stepper.specs.DebugRuns.{IsKeptDebug, IsPreparedFor, seen};

    ghost Value = { Option Debugged };

    ghost view = { λ d. seen d.ledger d.fault d.run };

    ghost invariant = { λ d. IsKeptDebug d.ledger d.fault d.run × IsPreparedFor d.ledger d.prepared d.run };
}

impl Stepper {
    /// The call of an entry of a block, before the first instruction of its program, over the ledger that the calls
    /// before it have led to. That ledger is made here, by a replay of those calls over the ledger before the block.
    ///
    /// Entries are numbered from 1, by rising timestamp. How the entries say that their calls ended is not compared.
    pub fn open_block<O: Op>(
        alloc: Global,
        base: &Ledger,
        block: &Block,
        entry: usize,
        ops: &FullOps<O>,
    ) -> Result<Stepper, OpenError>
        ensures opened { IfOk result (λ stepper. IsOpened base.now block.now entry stepper) }
        ensures refused { IfErr result (IsDebugRefusal base.now block.now entry) }
    {
        if entry_of(block.entries(), entry).is_none() {
            return Err(Failure::Fault(OpenFault::NoEntry));
        }
        let copy = base.clone()?;
        let base = Base::of(alloc, copy)?;
        Stepper::open_block_on(alloc, &base, block, entry, ops)
    }

    /// The same, over a ledger whose digest is known.
    pub fn open_block_on<O: Op>(
        alloc: Global,
        base: &Base,
        block: &Block,
        entry: usize,
        ops: &FullOps<O>,
    ) -> Result<Stepper, OpenError>
        ensures opened { IfOk result (λ stepper. IsOpened base.now block.now entry stepper) }
        ensures refused { IfErr result (IsDebugRefusal base.now block.now entry) }
    {
        match entry_of(block.entries(), entry) {
            None => Err(Failure::Fault(OpenFault::NoEntry)),
            Some(entry) => match ledger_before(alloc, base, block, entry, ops) {
                Ok(ledger) => Stepper::open(alloc, ledger, &entry.call, block.header(), ops),
                Err(refused) => Err(refused),
            },
        }
    }

    /// A call before the first instruction of its program, over the ledger that it meets.
    pub fn open<O: Op>(
        alloc: Global,
        ledger: Ledger,
        call: &Call,
        header: &Header,
        ops: &FullOps<O>,
    ) -> Result<Stepper, OpenError>
        ensures started { IfOk result (λ stepper. stepper ≡ Some (record {
          ledger = ledger;
          call = call.now;
          header = header.now;
          steps = 0;
          fault = None;
        })) }
        ensures program { IfOk result (λ _. HasProgram ledger call.now) }
        ensures refused { IfErr result (IsStartRefusal ledger call.now) }
    {
        let mut run = CallRun::start(alloc, call, header, None)?;
        match start_over(alloc, ops, &ledger, &mut run) {
            Ok(true) => match writes_of(alloc, &run) {
                Ok(prepared) => Ok(Stepper {
                    ledger,
                    prepared,
                    run: Some(run),
                    fault: None,
                }),
                Err(AllocError) => Err(Failure::Memory),
            },
            Ok(false) => Err(Failure::Fault(OpenFault::NoProgram)),
            Err(AllocError) => Err(Failure::Memory),
        }
    }

    /// Carries out the instruction that comes next, over the ledger. One that faults leaves place and stack as they
    /// were, and its fault is shown from then on. It costs what the instruction does.
    pub fn step<O: Op>(&mut self, alloc: Global, ops: &FullOps<O>) -> Result<(), StepError>
        ensures { StepsTo self.old self.new result }
    {
        let Some(run) = self.run.take() else {
            return Err(Failure::Fault(StepFault::Spent));
        };
        let mut run = run;
        if !comes_next(self.fault, &run) {
            self.run = Some(run);
            return Err(Failure::Fault(StepFault::Ended));
        }
        match step_over(alloc, ops, &self.ledger, &mut run) {
            Ok(fault) => {
                self.run = Some(run);
                self.fault = fault;
                Ok(())
            }
            Err(AllocError) => Err(Failure::Memory),
        }
    }

    /// The ledger that the call met.
    pub fn ledger(&self) -> &Ledger
        ensures { IsLedgerOf self.now result.now }
    {
        &self.ledger
    }

    /// The program that the call runs; none where a step was refused memory.
    pub fn program(&self) -> Option<&Program>
        ensures { IsProgramShown self.now (option_copied result) }
    {
        match &self.run {
            Some(run) => match run.shown() {
                Some(shown) => Some(shown.program),
                None => unreachable!(),
            },
            None => None,
        }
    }

    /// What the machine holds where the program stands. It costs what the machine holds, and nothing of the ledger.
    pub fn machine_view(&self, alloc: Global) -> Result<MachineView<'_>, ViewError>
        ensures { IsMachineShown self.now result }
    {
        match &self.run {
            Some(run) => match run.shown() {
                Some(shown) => match machine_at(alloc, self.fault, shown) {
                    Ok(view) => Ok(view),
                    Err(AllocError) => Err(Failure::Memory),
                },
                None => unreachable!(),
            },
            None => Err(Failure::Fault(ViewFault::Spent)),
        }
    }

    /// What stands where the program stands. It costs what the machine holds, the application's global state and what
    /// the call has written so far; of the rest of the ledger nothing is read.
    pub fn view(&self, alloc: Global) -> Result<View<'_>, ViewError>
        ensures { IsShown self.now result }
    {
        match &self.run {
            Some(run) => match run.shown() {
                Some(shown) => {
                    match view_at(alloc, &self.ledger, &self.prepared, self.fault, shown) {
                        Ok(view) => Ok(view),
                        Err(AllocError) => Err(Failure::Memory),
                    }
                }
                None => unreachable!(),
            },
            None => Err(Failure::Fault(ViewFault::Spent)),
        }
    }
}
