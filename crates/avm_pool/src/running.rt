//! One attempt of a call, outside the journal's lock.

ghost use Rattle.std.specs.Prelude.{◌≡◌, ℕ, IfOk};
ghost use Rattle.std.specs.Option.{option_copied};
ghost use Rattle.mv_parts.specs.CallNumbers.{call_of};
ghost use Rattle.mv_parts.specs.Commits.{IsOwnCall, reading};
ghost use Rattle.avm_pool.specs.Running.{IsSameAttempt};

use crate::block_prefix::{BlockPrefix, Kept};
use crate::ends::AttemptEnd;
use crate::gate::{Gate, GateEvent};
use crate::locked_work::ShardLock;
use crate::naming::Naming;
use crate::waiting::lock_soon;
use avm_block::Entry;
use avm_call::Call;
use avm_items::{Item, ItemValue};
use avm_ledger::Header;
use avm_ops::Op;
use avm_run::{Executions, Finished, FullOps, Reader, RunContext, Spare, run_reading};
use mv_shards::{Attempt, shard_of};
use std::alloc::{AllocError, Global};
use std::marker::Brand;
use std::sync::ledger::{Blank, Ledger};
use std::sync::{Mutex, Wait};
use teal_value::Failure;

/// What a thread executes calls with: its objects, and the box that the last run left.
#[derive(Drop)]
pub(crate) struct Executor<'a, O: Op> {
    pub ops: &'a FullOps<O>,
    pub spare: Option<Spare>,
}

/// What all workers share.
#[derive(Drop)]
pub(crate) struct Shared<'a, J: Naming, G> {
    pub alloc: Global,
    /// By index.
    pub shards: &'a [ShardLock<J>],
    pub calls: &'a [Call],
    pub header: &'a Header,
    /// The front of the block so far; none where nobody makes it ahead, or memory was refused to whoever did.
    pub prefix: &'a Mutex<Option<BlockPrefix>>,
    pub gate: &'a G,
    pub ghost calls_are: { calls.now ≡ J.calls },
    pub ghost header_is: { header.now ≡ J.header },
}

/// An attempt that runs, and how many its call has had with it; 0 where one thread runs what the workers left.
#[derive(Drop)]
pub(crate) struct RunningAttempt<'a, 'b, J: Naming, G, R> {
    pub shared: &'a Shared<'b, J, G>,
    pub rt: &'a R,
    pub attempt: Attempt,
    pub tries: u32,
}

impl<'a, J: Naming, G: Gate> Shared<'a, J, G> {
    /// The call of a number, from 1.
    pub fn call(&self, number: u32) -> Option<&'a Call>
        ensures { option_copied result ≡ call_of self.now.calls.now number }
    {
        if number == 0 {
            return None;
        }
        self.calls.get(number as usize - 1)
    }

    /// The entries of a block that committed calls are, as far as there are calls of their numbers.
    pub fn entries_of(&self, kept: &[Kept]) -> Result<Vec<Entry>, AllocError> {
        let mut entries = Vec::with_capacity(self.alloc, kept.len())?;
        for (timestamp, number, outcome) in kept {
            let Some(call) = self.call(*number) else {
                break;
            };
            entries.push(Entry {
                timestamp: *timestamp,
                call: call.clone()?,
                outcome: *outcome,
            })?;
        }
        Ok(entries)
    }
}

impl<'a, 'b, J: Naming, G: Gate, R: Wait> RunningAttempt<'a, 'b, J, G, R> {
    /// Runs the call of the attempt to its end. It fails with `Again` where an item could not be read at the attempt's
    /// timestamp, and with `Skipped` where memory was refused.
    pub fn run<O: Op>(&mut self, executor: &mut Executor<O>) -> Result<Finished, AttemptEnd>
        ensures own { IfOk result
            (λ f. IsOwnCall J.calls J.header (reading self.new.attempt f) f) }
    {
        let Some(call) = self.shared.call(self.attempt.number()) else {
            return Err(AttemptEnd::Skipped);
        };
        match self.run_call::<Brand, O>(executor, call, Blank::new(2)) {
            Ok(finished) => Ok(finished),
            Err(Failure::Memory) => Err(AttemptEnd::Skipped),
            Err(Failure::Fault(end)) => Err(end),
        }
    }

    fn run_call<L: Ledger, O: Op>(
        &mut self,
        executor: &mut Executor<O>,
        call: &Call,
        blank: Blank,
    ) -> Result<Finished, Failure<AttemptEnd>>
        requires blank { (blank.name ≡ L.name) × (blank.parts ≡ L.parts) × (blank.parts ≡ 2) }
        ensures call { IfOk result (λ f. (f.call ≡ call.now) × (f.header ≡ J.header)) }
        ensures same { IsSameAttempt self.old.attempt self.new.attempt }
    {
        let mut executions = Executions::<L>::new(blank);
        let context = RunContext {
            alloc: self.shared.alloc,
            ops: executor.ops,
            header: self.shared.header,
        };
        run_reading(&context, call, &mut executor.spare, self, &mut executions)
    }

    /// Tells the gate what the attempt has come to.
    pub fn tell(&self, event: GateEvent) {
        self.shared
            .gate
            .pause(self.attempt.number(), self.tries, event);
    }
}

impl<'a, 'b, J: Naming, G: Gate, R: Wait> Reader<AttemptEnd> for RunningAttempt<'a, 'b, J, G, R> {
    ghost kept = { λ t. (t.attempt.number, t.attempt.timestamp) };

    /// Reads an item under the lock of its shard.
    fn read(&mut self, item: &Item) -> Result<ItemValue, Failure<AttemptEnd>> {
        let index = shard_of(item);
        let Some(lock) = self.shared.shards.get(usize::from(index)) else {
            return Err(Failure::Fault(AttemptEnd::Again));
        };
        let mut guard = lock_soon(self.rt, lock);
        let shard = &mut *guard;
        let Some(shard) = shard else {
            return Err(Failure::Fault(AttemptEnd::Again));
        };
        let read = shard.read_at(self.attempt.timestamp(), item);
        let gate = self.shared.gate;
        gate.pause(self.attempt.number(), self.tries, GateEvent::Inside(index));
        drop(guard);
        match read {
            Ok(value) => {
                gate.pause(self.attempt.number(), self.tries, GateEvent::Read);
                Ok(value)
            }
            Err(Failure::Memory) => Err(Failure::Memory),
            Err(Failure::Fault(_pruned)) => Err(Failure::Fault(AttemptEnd::Again)),
        }
    }
}
