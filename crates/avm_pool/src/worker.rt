//! A worker: it draws numbers, and runs each call until it is committed or may not be.

ghost use Rattle.std.specs.Prelude.{◌≡◌};
ghost use Rattle.avm_pool.specs.NumberPasses.{IsWith, view};

use crate::block_prefix::{BlockPrefix, Kept};
use crate::call_numbers::{NumberPass, Numbers};
use crate::ends::{AttemptEnd, ThreadEnd};
use crate::gate::{Gate, GateEvent};
use crate::locked_work::{CommitResult, LockedWork, Wanted, work_with};
use crate::logged_held::LoggedHeld;
use crate::logged_journal::LoggedJournal;
use crate::naming::Naming;
use crate::own_call::OwnCall;
use crate::running::{Executor, RunningAttempt, Shared};
use crate::thread_room::take_room;
use crate::waiting::{lock_soon, stand_back};
use avm_ops::{Op, Ops};
use avm_run::FullOps;
use mv_parts::BeginFault;
use mv_shards::{Attempt, SHARD_COUNT, shard_of};
use std::alloc::AllocError;
use std::sync::{Mutex, Wait};
use teal_value::Failure;

/// After how many of its commits a worker prunes, and adds to the front of the block.
const COMMITS_BETWEEN: u32 = 64;

/// How many entries it adds at most, for those that others have committed meanwhile too.
const PREFIX_STEP: usize = 256;

/// What the attempts of a call and its entry take, in bytes. A worker may run all calls.
const CALL_ROOM: usize = 2048;

/// A set of objects, and a pass of the queue.
#[derive(Drop)]
pub(crate) struct Worker<'a, O: Op> {
    numbers: &'a Numbers,
    pass: NumberPass,
    ops: Ops<O>,
    ghost with: { IsWith numbers.now pass },
}

/// A worker of a set of objects.
pub(crate) fn enlist<'a, O: Op>(
    numbers: &'a Numbers,
    pass: &mut NumberPass,
    ops: Ops<O>,
) -> Worker<'a, O>
    requires { IsWith numbers.now pass.old }
    ensures { IsWith numbers.entry.now pass.new × (view pass.new ≡ view pass.old) }
{
    let theirs = numbers.worker(pass);
    Worker {
        numbers,
        pass: theirs,
        ops,
    }
}

impl<'a, O: Op> Worker<'a, O> {
    /// Draws numbers until there is none, and runs their calls.
    pub fn work<J: Naming, G: Gate, R: Wait>(
        self,
        rt: &R,
        journal: &Mutex<LoggedJournal<J>>,
        shared: &Shared<J, G>,
    ) -> ThreadEnd {
        let Worker {
            numbers,
            mut pass,
            ops,
        } = self;
        // The pool has asked already, but a thread knows nothing of its set but the type.
        let Ok(ops) = FullOps::of(ops) else {
            return ThreadEnd::Over;
        };
        let context = WorkerContext {
            rt,
            journal,
            shared,
        };
        let mut executor = Executor {
            ops: &ops,
            spare: None,
        };
        take_room(shared.alloc, shared.calls.len(), CALL_ROOM);
        let mut held = LoggedHeld::new(shared.alloc);
        context.run_numbers(&mut executor, &mut held, numbers, &mut pass)
    }
}

/// Where calls run: the runtime in which a thread waits, the journal behind its lock, and what all attempts share.
#[derive(Drop)]
pub(crate) struct WorkerContext<'a, 'b, 'c, J: Naming, G, R> {
    pub rt: &'a R,
    pub journal: &'a Mutex<LoggedJournal<J>>,
    pub shared: &'b Shared<'c, J, G>,
}

impl<'a, 'b, 'c, J: Naming, G: Gate, R: Wait> WorkerContext<'a, 'b, 'c, J, G, R> {
    /// Runs the calls of the numbers that are drawn, and prunes after every so many commits.
    fn run_numbers<O: Op>(
        &self,
        executor: &mut Executor<O>,
        held: &mut LoggedHeld<J>,
        numbers: &Numbers,
        pass: &mut NumberPass,
    ) -> ThreadEnd
        requires { IsWith numbers.now pass.old }
    {
        let mut commits = 0u32;
        for _ in self.rt.forever() {
            let Some(number) = numbers.draw(self.rt, pass) else {
                return ThreadEnd::Over;
            };
            match self.run_call(executor, held, number) {
                AttemptEnd::Committed => {
                    commits = commits.saturating_add(1);
                    if commits % COMMITS_BETWEEN == 0 {
                        self.extend_prefix();
                        self.prune(held);
                    }
                }
                AttemptEnd::Skipped | AttemptEnd::Again => {}
                AttemptEnd::ClockEnd => return ThreadEnd::ClockEnd,
            }
        }
        unreachable!()
    }

    /// Runs a call, in as many attempts as it takes: it does not end with `Again`.
    fn run_call<O: Op>(
        &self,
        executor: &mut Executor<O>,
        held: &mut LoggedHeld<J>,
        number: u32,
    ) -> AttemptEnd {
        let mut tries = 1u32;
        for _ in self.rt.forever() {
            match self.run_attempt(executor, held, number, tries) {
                AttemptEnd::Again => {
                    stand_back(tries);
                    tries = tries.saturating_add(1);
                }
                end => return end,
            }
        }
        unreachable!()
    }

    /// One attempt of a call. Each `let` that locks the journal lets it go at its end, so no lock is held at the gate.
    pub fn run_attempt<O: Op>(
        &self,
        executor: &mut Executor<O>,
        held: &mut LoggedHeld<J>,
        number: u32,
        tries: u32,
    ) -> AttemptEnd {
        let begun = lock_soon(self.rt, self.journal).begin(number);
        let attempt = match begun {
            Ok(attempt) => attempt,
            Err(Failure::Fault(BeginFault::ClockEnd)) => return AttemptEnd::ClockEnd,
            Err(_) => return AttemptEnd::Skipped,
        };
        let mut running = RunningAttempt {
            shared: self.shared,
            rt: self.rt,
            attempt,
            tries,
        };
        running.tell(GateEvent::Begun);
        match running.run(executor) {
            Ok(finished) => { self.commit(held, OwnCall::new(running.attempt, finished), tries) }
            Err(end) => self.abandon(running.attempt, end),
        }
    }

    /// Commits an attempt whose call has ended, or abandons it.
    fn commit(&self, held: &mut LoggedHeld<J>, call: OwnCall<J>, tries: u32) -> AttemptEnd {
        let number = call.number();
        let gate = self.shared.gate;
        gate.pause(number, tries, GateEvent::BeforeCommit);
        match self.worked(held, call) {
            CommitResult::Done => {
                gate.pause(number, tries, GateEvent::Committed);
                AttemptEnd::Committed
            }
            CommitResult::Again(attempt) => self.abandon(attempt, AttemptEnd::Again),
            CommitResult::Memory(attempt) => self.abandon(attempt, AttemptEnd::Skipped),
        }
    }

    /// What comes of a commit.
    fn worked(&self, held: &mut LoggedHeld<J>, call: OwnCall<J>) -> CommitResult {
        let wanted = shards_of(&call);
        self.under_locks(held, &wanted, &mut LockedWork::Commit(call))
    }

    /// Takes the journal's lock, and then those of the shards that are wanted.
    fn under_locks(
        &self,
        held: &mut LoggedHeld<J>,
        wanted: &[bool],
        work: &mut LockedWork<J>,
    ) -> CommitResult {
        let mut guard = lock_soon(self.rt, self.journal);
        let locks = Wanted {
            rt: self.rt,
            locks: self.shared.shards,
            wanted,
        };
        work_with(&locks, &mut guard, held, work)
    }

    /// Ends an attempt without a commit.
    fn abandon(&self, attempt: Attempt, end: AttemptEnd) -> AttemptEnd {
        let _abandoned = lock_soon(self.rt, self.journal).abandon(attempt);
        end
    }

    /// Adds the entries that stay as they are to the front of the block, unless another worker does so at this moment.
    fn extend_prefix(&self) {
        let Some(mut guard) = self.shared.prefix.try_lock() else {
            return;
        };
        let slot = &mut *guard;
        if let Some(prefix) = slot.take() {
            *slot = self.further(prefix).ok();
        }
    }

    /// With the entries that stay as they are by now.
    fn further(&self, prefix: BlockPrefix) -> Result<BlockPrefix, AllocError> {
        let kept = self.settled_from(prefix.len())?;
        prefix.with(self.shared.entries_of(kept.as_slice())?)
    }

    /// The entries that stay as they are, from an index on. Room is made before the journal is locked, and entries that don't
    /// fit wait for the next time.
    fn settled_from(&self, from: usize) -> Result<Vec<Kept>, AllocError> {
        let mut kept = Vec::with_capacity(self.shared.alloc, PREFIX_STEP)?;
        let guard = lock_soon(self.rt, self.journal);
        let journal = guard.journal();
        let entries = journal.entries();
        let end = journal.settled().min(from.saturating_add(PREFIX_STEP));
        for index in from..end {
            let entry = &entries[index];
            kept.push_reserved((entry.timestamp(), entry.number(), entry.outcome()));
        }
        Ok(kept)
    }

    /// Drops the versions that no attempt can ask for any more.
    fn prune(&self, held: &mut LoggedHeld<J>) {
        let all = [true; SHARD_COUNT];
        self.under_locks(held, &all, &mut LockedWork::Prune);
    }
}

/// Which shards have an item that was read or is written, by index.
fn shards_of<J: Naming>(call: &OwnCall<J>) -> [bool; SHARD_COUNT] {
    let mut wanted = [false; SHARD_COUNT];
    for (item, _value) in call.reads().as_slice() {
        wanted[usize::from(shard_of(item))] = true;
    }
    for (item, _value) in call.writes().as_slice() {
        wanted[usize::from(shard_of(item))] = true;
    }
    wanted
}
