//! A list of events over a store, step by step.

ghost use Rattle.std.specs.Prelude.{◌≡◌, [], None, Some, IfOk, OnOk, replicate};
ghost use Rattle.std.specs.Arc.{arc_value};
ghost use Rattle.avm_block.specs.CallsFaults.{calls_fault};
ghost use Rattle.mv_core.specs.declared.world.Worker.TheVariants.{Idle};
ghost use Rattle.mv_core.specs.Worlds.{AreLiveIn, AreSound, IsRun, IsRunTo, IsStep, input_of};
ghost use Rattle.mv_core.specs.WorkerSteps.{worker_in};

use crate::running::Event;
use crate::steps::work;
use crate::store::Store;
use crate::world::{Worker, World};
use avm_call::Call;
use avm_ledger::{Header, Ledger};
use avm_ops::Op;
use avm_run::FullOps;
use std::alloc::{AllocError, Global};
use std::mem;
use std::sync::Arc;
use teal_value::Failure;

/// How many workers there are.
const WORKER_COUNT: usize = 8;

/// What runs go on with, whatever their calls.
#[derive(Drop)]
pub struct Tools<'a, O: Op> {
    pub alloc: Global,
    pub ops: &'a FullOps<O>,
}

/// The store and its eight workers after these events, one after another: an event that does not apply where it comes
/// changes nothing.
pub fn run_events<O: Op>(
    tools: &Tools<O>,
    base: Ledger,
    header: Header,
    calls: Arc<Vec<Call>>,
    events: &[Event],
) -> Result<World, AllocError>
    requires opens { calls_fault header (arc_value calls).items ≡ None }
    ensures { IfOk result (λ world. IsRun (record {
      base = base;
      header = header;
      calls = (arc_value calls).items;
    }) events.now world) }
{
    match Store::open(tools.alloc, base, header, calls) {
        Ok(store) => {
            let mut store = store;
            let mut workers = idle_workers(tools.alloc)?;
            run_on(tools, &mut store, &mut workers, events)?;
            Ok(World { store, workers })
        }
        Err(Failure::Memory) => Err(AllocError),
        Err(Failure::Fault(_fault)) => unreachable!(),
    }
}

/// All events, from a store in which nothing has begun and idle workers.
fn run_on<O: Op>(
    tools: &Tools<O>,
    store: &mut Store,
    workers: &mut Vec<Worker>,
    events: &[Event],
) -> Result<(), AllocError>
    requires first { IsRunTo (input_of store.old) [] store.old workers.old.items }
    ensures { OnOk result (IsRunTo (input_of store.old) events.now store.new workers.new.items) }
{
    for event in events {
        step(tools, store, workers, *event)?;
    }
    Ok(())
}

/// Workers without an attempt.
fn idle_workers(alloc: Global) -> Result<Vec<Worker>, AllocError>
    ensures { IfOk result (λ workers. workers.items ≡ replicate WORKER_COUNT Idle) }
{
    let mut workers = Vec::with_capacity(alloc, WORKER_COUNT)?;
    for _number in 0..WORKER_COUNT {
        workers.push(Worker::Idle)?;
    }
    Ok(workers)
}

/// One event.
fn step<O: Op>(
    tools: &Tools<O>,
    store: &mut Store,
    workers: &mut Vec<Worker>,
    event: Event,
) -> Result<(), AllocError>
    requires sound { AreSound (input_of store.old) workers.old.items }
    requires live { AreLiveIn store.old workers.old.items }
    ensures { OnOk result (IsStep event store.old store.new workers.old.items workers.new.items) }
{
    match event {
        Event::Begin(worker, _number) => act(tools, store, workers, worker, event),
        Event::Read(worker) => act(tools, store, workers, worker, event),
        Event::Commit(worker) => act(tools, store, workers, worker, event),
        Event::Abandon(worker) => act(tools, store, workers, worker, event),
        Event::Prune(timestamp) => {
            store.prune(timestamp);
            Ok(())
        }
    }
}

/// A worker's event. There is no worker beyond the last.
fn act<O: Op>(
    tools: &Tools<O>,
    store: &mut Store,
    workers: &mut Vec<Worker>,
    number: u8,
    event: Event,
) -> Result<(), AllocError>
    requires sound { AreSound (input_of store.old) workers.old.items }
    requires live { AreLiveIn store.old workers.old.items }
    requires own { worker_in event ≡ Some number }
    ensures { OnOk result (IsStep event store.old store.new workers.old.items workers.new.items) }
{
    let index = usize::from(number);
    if index >= workers.len() {
        return Ok(());
    }
    let worker = mem::replace(&mut workers[index], Worker::Idle);
    match work(tools, store, worker, event) {
        Ok(after) => {
            workers[index] = after;
            Ok(())
        }
        Err(refused) => Err(refused),
    }
}
