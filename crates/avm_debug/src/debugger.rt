//! Debuggers.

ghost use Rattle.std.specs.Prelude.{◌≡◌, ◌↔◌, IfErr, IfOk, IsErrOf};
ghost use Rattle.teal_value.specs.declared.failure.Failure.TheVariants.{Fault};
ghost use Rattle.avm_debug.specs.declared.faults.PastFault.TheVariants.{Pruned, WrongBase};
ghost use Rattle.avm_stepper.specs.DebugSteps.{StepsTo};
ghost use Rattle.avm_stepper.specs.Shown.{IsShown};
ghost use Rattle.avm_debug.specs.Sources.{HasWrongBase, IsOpenedFrom, IsPrunedSource, IsRefusedFrom, past_ledger};

use crate::faults::PastError;
use crate::live::open_live;
use crate::source::{Source, state_of};
use avm_ledger::Ledger;
use avm_ops::Op;
use avm_run::FullOps;
use avm_stepper::{OpenError, StepError, Stepper, View, ViewError};
use std::alloc::Global;
use std::marker::Model;

/// A call that is stepped through, and the block or store that it is of. Contracts see both (`specs/Debuggers.antt`).
#[derive(Drop)]
pub struct Debugger<'a> {
    source: Source<'a>,
    stepper: Stepper,
}

impl<'a> Model for Debugger<'a> {
    ghost use Rattle.avm_debug.specs.Debuggers.{SourcedCall};

    ghost Value = { SourcedCall };

    ghost view = { λ d. record { source = d.source; stepper = d.stepper } };
}

impl<'a> Debugger<'a> {
    /// The call of an entry, before the first instruction of its program, over the ledger that it met.
    ///
    /// Entries are numbered from 1, in ascending order of timestamp. How they say that their calls ended is not compared. What a store
    /// commits later does not show.
    pub fn open<O: Op>(
        alloc: Global,
        source: Source<'a>,
        entry: usize,
        ops: &FullOps<O>,
    ) -> Result<Debugger<'a>, OpenError>
        ensures source { IfOk result (λ debugger. debugger.source ≡ source.entry) }
        ensures opened { IfOk result
            (λ debugger. IsOpenedFrom source.entry entry debugger.stepper) }
        ensures refused { IfErr result (IsRefusedFrom source.entry entry) }
    {
        let opened = match source {
            Source::Block(base, block) => Stepper::open_block(alloc, base, block, entry, ops),
            Source::Live(store) => open_live(alloc, store, entry, ops),
        };
        match opened {
            Ok(stepper) => Ok(Debugger { source, stepper }),
            Err(refused) => Err(refused),
        }
    }

    /// What the call is opened of.
    pub fn source(&self) -> Source<'a>
        ensures { result ≡ self.now.source }
    {
        self.source
    }

    /// The call that is stepped through.
    pub fn stepper(&self) -> &Stepper
        ensures { result.now ≡ self.now.stepper }
    {
        &self.stepper
    }

    /// Makes a step, as [`Stepper::step`] does.
    pub fn step<O: Op>(&mut self, alloc: Global, ops: &FullOps<O>) -> Result<(), StepError>
        ensures step { StepsTo self.old.stepper self.new.stepper result }
        ensures source { self.new.source ≡ self.old.source }
    {
        self.stepper.step(alloc, ops)
    }

    /// What stands where the program stands, as [`Stepper::view`] shows it.
    pub fn view(&self, alloc: Global) -> Result<View<'_>, ViewError>
        ensures { IsShown self.now.stepper result }
    {
        self.stepper.view(alloc)
    }

    /// The ledger after the source's calls with timestamps up to this one, as [`state_of`] gives it.
    pub fn state<O: Op>(
        &self,
        alloc: Global,
        timestamp: u64,
        ops: &FullOps<O>,
    ) -> Result<Ledger, PastError>
        ensures ledger { IfOk result (λ ledger. ledger ≡ past_ledger self.now.source timestamp) }
        ensures wrong_base { IsErrOf result (Fault WrongBase) → HasWrongBase self.now.source }
        ensures same_base { IfOk result (λ _. HasWrongBase self.now.source → ⊥) }
        ensures pruned { IsErrOf result (Fault Pruned) ↔ IsPrunedSource self.now.source timestamp }
    {
        state_of(alloc, self.source, timestamp, ops)
    }
}
