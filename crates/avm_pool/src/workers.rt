//! Workers in threads.

ghost use Rattle.std.specs.Prelude.{◌≡◌, ◌≤◌, true, [], IfErr, length};
ghost use Rattle.avm_pool.specs.NumberPasses.{IsWith, view};
ghost use Rattle.avm_pool.specs.NumberRule.{hand};
ghost use Rattle.avm_pool.specs.Refusals.{IsWant};
ghost use Rattle.avm_block.specs.Blocks.{most_calls};

use crate::call_numbers::{NumberPass, Numbers};
use crate::ends::ThreadEnd;
use crate::gate::Gate;
use crate::logged_journal::LoggedJournal;
use crate::naming::Naming;
use crate::pool_fault::{PoolError, PoolFault};
use crate::running::Shared;
use crate::worker::{Worker, enlist};
use avm_ops::{Op, Ops};
use std::alloc::{AllocError, Global};
use std::sync::{Mutex, Wait};
use std::thread;
use std::thread::Threads;
use teal_value::Failure;

/// Puts the numbers 1 to the count.
fn put_all<R: Wait>(rt: &R, numbers: &Numbers, pass: &mut NumberPass, count: u32)
    requires queue { IsWith numbers.now pass.old × (view pass.old ≡ hand true 0 []) }
    requires room { count ≤ most_calls }
    ensures { IsWith numbers.now pass.new × (view pass.new ≡ hand true count []) }
{
    for below in 0..count {
        if numbers.put(rt, pass, below + 1).is_err() {
            unreachable!()
        }
    }
}

/// A worker of each set.
fn enlist_all<'a, O: Op>(
    alloc: Global,
    numbers: &'a Numbers,
    pass: &mut NumberPass,
    sets: Vec<Ops<O>>,
) -> Result<Vec<Worker<'a, O>>, AllocError>
    requires { IsWith numbers.now pass.old }
    ensures { IsWith numbers.entry.now pass.new × (view pass.new ≡ view pass.old) }
{
    let mut workers = Vec::with_capacity(alloc, sets.len())?;
    for ops in sets {
        workers.push(enlist(numbers, pass, ops))?;
    }
    Ok(workers)
}

/// Has a worker of each set run the calls on a journal behind its lock, each in a thread of its own.
pub(crate) fn run_sets<J: Naming + Send + Sync, O: Op, G: Gate, R: Threads + Wait + Sync>(
    rt: &R,
    journal: &Mutex<LoggedJournal<J>>,
    shared: &Shared<J, G>,
    sets: Vec<Ops<O>>,
) -> Result<(), PoolError>
    requires few { length shared.now.calls.now ≤ most_calls }
    ensures want { IfErr result IsWant }
{
    let (numbers, mut pass) = Numbers::new(shared.alloc)?;
    put_all(rt, &numbers, &mut pass, shared.calls.len() as u32);
    let workers = enlist_all(shared.alloc, &numbers, &mut pass, sets)?;
    let work = |worker: Worker<O>| worker.work(rt, journal, shared);
    match run_workers(rt, shared.alloc, &work, workers)? {
        ThreadEnd::Over => Ok(()),
        ThreadEnd::NotStarted => Err(Failure::Fault(PoolFault::Spawn)),
        ThreadEnd::ClockEnd => Err(Failure::Fault(PoolFault::ClockEnd)),
    }
}

/// Has each worker work in a thread of its own, and joins those that were started. Neither they nor what they share is named
/// here, so that threads may have each is asked apart.
fn run_workers<W: Send + Drop, F: Fn(W) -> ThreadEnd + Sync, R: Threads + Wait + Sync>(
    rt: &R,
    alloc: Global,
    work: &F,
    workers: Vec<W>,
) -> Result<ThreadEnd, AllocError>
    requires { F.IsAlwaysCallable work.now }
{
    let mut handles = Vec::with_capacity(alloc, workers.len())?;
    Ok(thread::scope(thread::scope_env(), rt, move |scope| {
        let mut end = ThreadEnd::Over;
        for worker in workers {
            match scope.spawn(move || work(worker)) {
                Ok(handle) => {
                    if let Err(refused) = handles.push(handle) {
                        refused.value.join(rt);
                    }
                }
                Err(_) => {
                    end = ThreadEnd::NotStarted;
                    break;
                }
            }
        }
        for handle in handles {
            if handle.join(rt) == ThreadEnd::ClockEnd && end == ThreadEnd::Over {
                end = ThreadEnd::ClockEnd;
            }
        }
        end
    }))
}
