//! A run of a call, which stops at each item that it was not supplied with.

ghost use Rattle.std.specs.Prelude.{◌≡◌, [], None, Ok, Some, IfOk};
ghost use Rattle.std.specs.Option.{option_copied};
ghost use Rattle.std.specs.Result.{result_err};
ghost use Rattle.avm_items.specs.Asks.{answer_from};
ghost use Rattle.avm_items.specs.Items.{value_in};
ghost use Rattle.avm_call.specs.AskedFor.{AreAskedFor};
ghost use Rattle.avm_call.specs.Calls.{call_result};
ghost use Rattle.avm_run.specs.declared.call_run.State.TheVariants as state;
ghost use Rattle.avm_run.specs.Advances.{Advances, Steps, Supplies};
ghost use Rattle.avm_run.specs.ExecutedSteps.{AdvanceExecutes, StepExecutes};
ghost use Rattle.avm_run.specs.FaultNames.{run_fault_name};
ghost use Rattle.avm_run.specs.Knowing.{Knows};
ghost use Rattle.avm_run.specs.RunState.{is_asked};
ghost use Rattle.avm_run.specs.Showing.{Shows};

use crate::context::RunContext;
use crate::finished::Finished;
use crate::full_ops::{Executions, FullOps};
use crate::phase::{EndedRun, PathOutcome, Phase, RunOutcome, run_on, step_on};
use crate::running::Spare;
use crate::shown::Shown;
use avm_call::{Call, Ended};
use avm_items::{Item, ItemMap, ItemValue};
use avm_ledger::Header;
use avm_ops::Op;
use std::alloc::{AllocError, Global};
use std::cmp::Ordering;
use std::marker::Model;
use std::mem;
use std::sync::ledger::Ledger;
use thiserror::Error;

/// Why a run gives no answer.
#[derive(Clone, Copy, Debug, PartialEq, Eq, Error)]
#[error("{name}", name = self.name())]
pub enum RunFault {
    /// The item was not asked for.
    NotAsked = 1,
    /// The run has ended, or memory was refused to it.
    Spent,
    /// Memory was refused. The run is spent.
    Memory,
}

impl RunFault {
    /// Its name.
    pub fn name(self) -> &'static str
        ensures { result.now ≡ run_fault_name self }
    {
        match self {
            RunFault::NotAsked => "NotAsked",
            RunFault::Spent => "Spent",
            RunFault::Memory => "Memory",
        }
    }
}

/// What a run comes to.
#[derive(Drop)]
pub enum Advance {
    /// It asks for the value of this item.
    Need(Item),
    /// The call has ended.
    Done(Finished),
}

/// What one step of a run comes to.
#[derive(Drop)]
pub enum Step {
    /// It stands at the next place of its program's path.
    Moved,
    /// It asks for the value of this item.
    Need(Item),
    /// The program has ended so, at the place where the run stands. The run still shows that place, and goes on to the end of
    /// the call by [`CallRun::advance`].
    Ended(Ended),
    /// No program runs, and the call has ended.
    Done(Finished),
}

/// A run that may go on.
#[derive(Drop)]
pub(crate) struct Live {
    pub call: Call,
    pub header: Header,
    pub phase: Phase,
    /// The item that it asked for and was not supplied with.
    pub asked: Option<Item>,
}

#[derive(Drop)]
pub(crate) enum State {
    Live(Live),
    Spent,
}

impl Live {
    /// Whether the run asked for this item.
    fn asks_for(&self, item: &Item) -> bool
        ensures { result ≡ is_asked self.now.asked item.now }
    {
        match &self.asked {
            Some(asked) => matches!(asked.cmp(item), Ordering::Equal),
            None => false,
        }
    }
}

/// A run that has not asked for an item since it was supplied with the last one.
fn going(call: Call, header: Header, phase: Phase) -> State
    ensures { result
        ≡ state.Live (record { call = call; header = header; phase = phase; asked = None }) }
{
    State::Live(Live {
        call,
        header,
        phase,
        asked: None,
    })
}

/// A run that asks for this item.
fn asking(call: Call, header: Header, phase: Phase, item: &Item) -> State
    ensures { result ≡ state.Live (record {
      call = call;
      header = header;
      phase = phase;
      asked = Some item.now;
    }) }
{
    State::Live(Live {
        call,
        header,
        phase,
        asked: Some(item.copied()),
    })
}

/// The finished call: what it writes without what has the value of before.
pub(crate) fn finished(call: Call, header: Header, closed: EndedRun) -> Finished
    requires result { answer_from (value_in closed.reads) (call_result call header)
        ≡ Ok (closed.outcome, closed.writes) }
    requires asked { AreAskedFor closed.reads call header }
    ensures same { (result.call ≡ call) × (result.header ≡ header) × (result.reads ≡ closed.reads) }
    ensures outcome { result.outcome ≡ closed.outcome }
{
    let EndedRun {
        reads,
        writes,
        outcome,
    } = closed;
    let mut writes = writes;
    writes.prune(&reads);
    Finished::new(call, header, reads, writes, outcome)
}

/// A run of a call, which contracts see as its progress, or as none where it is spent.
pub struct CallRun {
    state: State,
    /// A box for the program, until it begins and after it has ended.
    spare: Option<Spare>,
}

/// Written out, so that whoever owns one drops it by one call and not part by part.
impl Drop for CallRun {
    #[inline]
    fn drop(self) {
        let CallRun { state: _, spare: _ } = self;
    }
}

impl Model for CallRun {
    ghost use Rattle.std.specs.Prelude.{Option};
    ghost use Rattle.avm_run.specs.RunState.{Progress};
    ghost use Rattle.avm_run.specs.KeptRuns.{IsSoundState, progress};

    ghost Value = { Option Progress };

    ghost view = { λ r. progress r.state };

    ghost invariant = { λ r. IsSoundState r.state };
}

impl CallRun {
    /// A run of the call that was supplied with no item. Its program will run in the spare box, on its machine; where there
    /// is none, one is made. [`CallRun::into_spare`] gives it back.
    pub fn start(
        alloc: Global,
        call: &Call,
        header: &Header,
        spare: Option<Spare>,
    ) -> Result<CallRun, AllocError>
        ensures { IfOk result (λ run. run ≡ Some (record {
          call = call.now;
          header = header.now;
          reads = [];
          asked = None;
          steps = None;
        })) }
    {
        let call = call.clone()?;
        // That it keeps the rules of calls, its type says.
        let _fields = call.fields();
        let phase = Phase::Tests(ItemMap::new(alloc));
        Ok(CallRun {
            state: going(call, *header, phase),
            spare,
        })
    }

    /// Where the program of the run stands, if it has begun and the run may go on: what has come of the steps made, over the
    /// items supplied. At a fault and at the end of the program it stays as it was before the step that ends the program.
    pub fn shown(&self) -> Option<Shown<'_>>
        ensures { Shows self.now result }
    {
        match &self.state {
            State::Live(live) => live.shown(),
            State::Spent => None,
        }
    }

    /// The value of an item, if the program of the run has begun and the value is known: what the call has written; else, of
    /// a key of the application that it makes, that it is absent; else what the run was supplied with. It is the item's value
    /// in the ledger with the writes so far, on each ledger that the run may be supplied from; of a key or the counts of an
    /// application only where the application is known to stand.
    pub fn value(&self, item: &Item) -> Option<&ItemValue>
        ensures { Knows self.now item.now (option_copied result) }
    {
        match &self.state {
            State::Live(live) => live.value(item),
            State::Spent => None,
        }
    }

    /// What a run leaves for the next one, if anything: one whose program has not begun and that was handed nothing leaves
    /// nothing, nor does one that was refused memory in its program.
    pub fn into_spare(self) -> Option<Spare> {
        let CallRun { state, spare } = self;
        match state {
            State::Live(live) => live.phase.into_spare(spare),
            State::Spent => spare,
        }
    }

    /// Takes the value of the item that was asked for.
    pub fn supply(&mut self, item: Item, value: ItemValue) -> Result<(), RunFault>
        ensures { Supplies self.old self.new item value (result_err result) }
    {
        match mem::replace(&mut self.state, State::Spent) {
            State::Spent => Err(RunFault::Spent),
            State::Live(live) => {
                if !live.asks_for(&item) {
                    self.state = State::Live(live);
                    return Err(RunFault::NotAsked);
                }
                let Live {
                    call,
                    header,
                    phase,
                    asked: _asked,
                } = live;
                match phase.supplied(item, value) {
                    Ok(phase) => {
                        self.state = going(call, header, phase);
                        Ok(())
                    }
                    Err(AllocError) => Err(RunFault::Memory),
                }
            }
        }
    }

    /// Runs on until the call ends or asks for an item that was not supplied. It goes on where it stopped; the tests
    /// before the program may be made again. A program makes no more steps than it has instructions, which cost at most 700
    /// together (AVM specification, "Execution Environment for Smart Contracts").
    ///
    /// The instructions that are executed are counted: one for each step that the run makes, so that none is executed again
    /// once it has made its step, however often the run asks. An instruction that asks is executed again when the run goes
    /// on; that and a fault are counted apart.
    pub fn advance<L: Ledger, O: Op>(
        &mut self,
        alloc: Global,
        ops: &FullOps<O>,
        executions: &mut Executions<L>,
    ) -> Result<Advance, RunFault>
        ensures advances { Advances self.old self.new result }
        ensures executes { AdvanceExecutes self.old self.new result executions.old executions.new }
    {
        match mem::replace(&mut self.state, State::Spent) {
            State::Spent => Err(RunFault::Spent),
            State::Live(live) => {
                let Live {
                    call,
                    header,
                    phase,
                    asked: _asked,
                } = live;
                let context = RunContext {
                    alloc,
                    ops,
                    header: &header,
                };
                match run_on(&context, &call, phase, &mut self.spare, executions) {
                    Ok(RunOutcome::Need(phase, item)) => {
                        self.state = asking(call, header, phase, &item);
                        Ok(Advance::Need(item))
                    }
                    Ok(RunOutcome::Done(closed)) => Ok(Advance::Done(finished(
                        call, header, closed,
                    ))),
                    Err(AllocError) => Err(RunFault::Memory),
                }
            }
        }
    }

    /// Makes one step of the path of the call's program, over the items supplied. The first step makes the tests before the
    /// program and leads to the start of the path, before the first instruction; each further step executes one
    /// instruction, which is counted. At a fault and at the end of the program the run stays where it stands. Where no program
    /// runs, the call ends, as with [`CallRun::advance`].
    pub fn step_one<L: Ledger, O: Op>(
        &mut self,
        alloc: Global,
        ops: &FullOps<O>,
        executions: &mut Executions<L>,
    ) -> Result<Step, RunFault>
        ensures steps { Steps self.old self.new result }
        ensures executes { StepExecutes self.old result executions.old executions.new }
    {
        match mem::replace(&mut self.state, State::Spent) {
            State::Spent => Err(RunFault::Spent),
            State::Live(live) => {
                let Live {
                    call,
                    header,
                    phase,
                    asked: _asked,
                } = live;
                let context = RunContext {
                    alloc,
                    ops,
                    header: &header,
                };
                match step_on(&context, &call, phase, &mut self.spare, executions) {
                    Ok(PathOutcome::On(phase)) => {
                        self.state = going(call, header, phase);
                        Ok(Step::Moved)
                    }
                    Ok(PathOutcome::Ends(phase, ended)) => {
                        self.state = going(call, header, phase);
                        Ok(Step::Ended(ended))
                    }
                    Ok(PathOutcome::Stops(ran)) => match ran {
                        RunOutcome::Need(phase, item) => {
                            self.state = asking(call, header, phase, &item);
                            Ok(Step::Need(item))
                        }
                        RunOutcome::Done(closed) => Ok(Step::Done(finished(call, header, closed))),
                    },
                    Err(AllocError) => Err(RunFault::Memory),
                }
            }
        }
    }
}
