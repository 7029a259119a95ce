//! What a worker's event makes of its attempt and of the store.

ghost use Rattle.std.specs.Prelude.{◌≡◌, Some, IfOk, IsSome};
ghost use Rattle.mv_core.specs.Worlds.{TicketAsksFor, TicketHasEnded, IsLiveWith, IsSoundWorker, attempt_by, attempt_of, input_of, reads_or_none};
ghost use Rattle.mv_core.specs.WorkerSteps.{IsAbandonBy, IsAdvanced, IsBegun, IsBegunBy, IsCommit, IsCommitBy, IsGoing, IsLiveIfAny, IsReadByStore, IsReadBy, IsWork, worker_in};

use crate::event_list::Tools;
use crate::faults::{CommitFault, RefusedCommit};
use crate::running::Event;
use crate::store::Store;
use crate::ticket::Ticket;
use crate::world::Worker;
use avm_items::Item;
use avm_ops::Op;
use avm_run::{Advance, CallRun, Executions, Finished, RunFault};
use std::alloc::AllocError;
use std::marker::Brand;
use std::sync::ledger::{Blank, Ledger};
use teal_value::Failure;

/// A worker after its event.
pub(crate) fn work<O: Op>(
    tools: &Tools<O>,
    store: &mut Store,
    worker: Worker,
    event: Event,
) -> Result<Worker, AllocError>
    requires sound { IsSoundWorker (input_of store.old) worker }
    requires live { IsLiveIfAny store.old (attempt_of worker) }
    requires own { IsSome (worker_in event) }
    ensures work { IfOk result
        (λ after. IsWork event store.old store.new worker (attempt_of after)) }
    ensures sound { IfOk result (λ after. IsSoundWorker (input_of store.old) after) }
{
    match event {
        Event::Begin(_worker, number) => begin_by(tools, store, worker, number),
        Event::Read(_worker) => read_by(tools, store, worker),
        Event::Commit(_worker) => commit_by(store, worker),
        Event::Abandon(_worker) => {
            abandon_by(store, worker);
            Ok(Worker::Idle)
        }
        Event::Prune(_timestamp) => unreachable!(),
    }
}

/// Begins a call, where the worker is idle.
fn begin_by<O: Op>(
    tools: &Tools<O>,
    store: &mut Store,
    worker: Worker,
    number: u32,
) -> Result<Worker, AllocError>
    requires sound { IsSoundWorker (input_of store.old) worker }
    ensures begun { IfOk result
        (λ after. IsBegunBy store.old store.new number (attempt_of worker) (attempt_of after)) }
    ensures sound { IfOk result (λ after. IsSoundWorker (input_of store.old) after) }
{
    match worker {
        Worker::Idle => begin(tools, store, number),
        busy => Ok(busy),
    }
}

/// Reads the item that the worker's run asks for, if it does.
fn read_by<O: Op>(tools: &Tools<O>, store: &mut Store, worker: Worker) -> Result<Worker, AllocError>
    requires sound { IsSoundWorker (input_of store.old) worker }
    requires live { IsLiveIfAny store.old (attempt_of worker) }
    ensures read { IfOk result (λ after. IsReadBy store.old store.new worker (attempt_of after)) }
    ensures sound { IfOk result (λ after. IsSoundWorker (input_of store.old) after) }
{
    match worker {
        Worker::Running { ticket, run, asks } => read(tools, store, ticket, run, asks),
        other => Ok(other),
    }
}

/// Commits the worker's call, if it has ended.
fn commit_by(store: &mut Store, worker: Worker) -> Result<Worker, AllocError>
    requires sound { IsSoundWorker (input_of store.old) worker }
    requires live { IsLiveIfAny store.old (attempt_of worker) }
    ensures commit { IfOk result
        (λ after. IsCommitBy store.old store.new worker (attempt_of after)) }
    ensures sound { IfOk result (λ after. IsSoundWorker (input_of store.old) after) }
{
    match worker {
        Worker::Finished { ticket, finished } => commit(store, ticket, finished),
        other => Ok(other),
    }
}

/// Abandons the worker's attempt, if it has one.
fn abandon_by(store: &mut Store, worker: Worker)
    requires live { IsLiveIfAny store.old (attempt_of worker) }
    ensures { IsAbandonBy store.old store.new (attempt_of worker) None }
{
    if let Some(ticket) = worker.ticket() {
        match store.abandon(&ticket) {
            Ok(()) => {}
            Err(_unknown) => unreachable!(),
        }
    }
}

/// Begins a call, where it is neither live nor committed, and runs it to the first item that it asks for, or to its end.
fn begin<O: Op>(tools: &Tools<O>, store: &mut Store, number: u32) -> Result<Worker, AllocError>
    ensures begun { IfOk result (λ after. IsBegun store.old store.new number (attempt_of after)) }
    ensures sound { IfOk result (λ after. IsSoundWorker (input_of store.old) after) }
{
    match store.begin(number) {
        Ok(ticket) => match store.call(number) {
            Some(call) => {
                let run = CallRun::start(tools.alloc, call, store.header(), None)?;
                advance::<Brand, O>(tools, ticket, run, Blank::new(2))
            }
            None => unreachable!(),
        },
        Err(Failure::Fault(_refused)) => Ok(Worker::Idle),
        Err(Failure::Memory) => Err(AllocError),
    }
}

/// Reads the item that a run asks for, and runs on to the next one, or to the end of the call.
fn read<O: Op>(
    tools: &Tools<O>,
    store: &mut Store,
    ticket: Ticket,
    run: CallRun,
    asks: Item,
) -> Result<Worker, AllocError>
    requires asks { TicketAsksFor (input_of store.old) ticket run asks }
    requires live { IsLiveWith store.old (attempt_by ticket (reads_or_none run)) }
    ensures read { IfOk result (λ after. IsReadByStore store.old store.new
        (attempt_by ticket (reads_or_none run)) asks (attempt_of after)) }
    ensures sound { IfOk result (λ after. IsSoundWorker (input_of store.old) after) }
{
    let mut run = run;
    match store.read(&ticket, asks.copied()) {
        Ok(value) => match run.supply(asks, value) {
            Ok(()) => advance::<Brand, O>(tools, ticket, run, Blank::new(2)),
            Err(RunFault::Memory) => Err(AllocError),
            Err(RunFault::NotAsked) => unreachable!(),
            Err(RunFault::Spent) => unreachable!(),
        },
        Err(Failure::Memory) => Err(AllocError),
        Err(Failure::Fault(_unknown)) => unreachable!(),
    }
}

/// Runs on to the next item that a run asks for, or to the end of its call.
fn advance<L: Ledger, O: Op>(
    tools: &Tools<O>,
    ticket: Ticket,
    run: CallRun,
    blank: Blank,
) -> Result<Worker, AllocError>
    requires blank { (blank.name ≡ L.name) × (blank.parts ≡ L.parts) × (blank.parts ≡ 2) }
    requires runs { IsGoing run }
    ensures { IfOk result (λ after. IsAdvanced ticket run after) }
{
    let mut run = run;
    match run.advance(tools.alloc, tools.ops, &mut Executions::<L>::new(blank)) {
        Ok(Advance::Need(asks)) => Ok(Worker::Running { ticket, run, asks }),
        Ok(Advance::Done(finished)) => {
            // What a call that has ended keeps.
            finished.holds();
            Ok(Worker::Finished { ticket, finished })
        }
        Err(RunFault::Memory) => Err(AllocError),
        Err(RunFault::NotAsked) => unreachable!(),
        Err(RunFault::Spent) => unreachable!(),
    }
}

/// Commits a call that has ended. Where it is late, it stays as it is.
fn commit(store: &mut Store, ticket: Ticket, finished: Finished) -> Result<Worker, AllocError>
    requires ended { TicketHasEnded (input_of store.old) ticket finished }
    requires live { IsLiveWith store.old (attempt_by ticket finished.reads) }
    ensures commit { IfOk result (λ after. IsCommit store.old store.new
        (attempt_by ticket finished.reads) finished (attempt_of after)) }
    ensures sound { IfOk result (λ after. IsSoundWorker (input_of store.old) after) }
{
    match store.commit(&ticket, finished) {
        Ok(_timestamp) => Ok(Worker::Idle),
        Err(refused) => {
            let RefusedCommit { error, finished } = refused;
            match error {
                Failure::Memory => Err(AllocError),
                Failure::Fault(
                    CommitFault::Late {
                        item: _item,
                        version: _version,
                        mark: _mark,
                    },
                ) => Ok(Worker::Finished { ticket, finished }),
                Failure::Fault(CommitFault::Unknown) => unreachable!(),
                Failure::Fault(CommitFault::Stranger) => unreachable!(),
            }
        }
    }
}
