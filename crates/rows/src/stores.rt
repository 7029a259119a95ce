//! Events of a store, and looks at it.

ghost use Rattle.std.specs.Prelude.{◌≡◌, IfOk, None};
ghost use Rattle.std.specs.Arc.{arc_value};
ghost use Rattle.avm_block.specs.CallsFaults.{calls_fault};

use crate::item_texts::{digits_of, entries_text, item_text, late_text, value_text};
use crate::script::Step;
use crate::sealed::{block_text, replay_text};
use crate::store_answers::Said;
use avm_call::Call;
use avm_debug::{Debugger, PastError, Source, state_of};
use avm_items::Item;
use avm_ledger::{Header, Ledger};
use avm_ops::Op;
use avm_run::{Advance, CallRun, Executions, Finished, FullOps, RunContext, call_plain};
use mv_core::{CommitFault, Event, ReadFault, Store, Ticket, Tools, Worker, World, run_events};
use mv_parts::{BeginFault, Sealed};
use sample_calls::calls::HEADER;
use std::alloc::{AllocError, Global};
use std::collections::BTreeMap;
use std::marker::Brand;
use std::sync::ledger::Blank;
use std::sync::{Arc, ledger};
use std::test::Fail;
use teal_value::{Address, Failure, StateKey};

/// A ledger and calls.
#[derive(Drop)]
pub struct Stored {
    pub base: Ledger,
    pub calls: Arc<Vec<Call>>,
}

/// What a row does with a store. A call that has ended has a name.
#[derive(Drop)]
pub enum StoreEvent {
    Open(Stored),
    /// One call on the ledger.
    Plain(Stored),
    /// A store after events of eight workers.
    Events(Stored, Vec<Event>),
    Begin(u32),
    Read(Ticket, Item),
    /// A read to which memory may be refused, but which must then leave no mark: the call of the name commits, though its
    /// timestamp is below. What is read isn't told: at a second try it is what that call wrote.
    Unmarked(Ticket, String, Item),
    /// Reads all that the call of a ticket asks for, and names its end.
    Run(Ticket, String),
    Commit(Ticket, String),
    Abandon(Ticket),
    Prune(u64),
    Versions(Item),
    /// The ledger of a timestamp.
    State(u64),
    /// An entry's program after so many steps.
    Debug(usize, usize),
    /// The ledger of a timestamp, by the debugger of an entry, or by none if that is 0.
    Past(usize, u64),
    Entries,
    /// Whether the store is of its ledger, header and calls, and of another header, no calls and the empty ledger.
    IsOf,
    Seal,
    /// The sealed block, and its numbers.
    Block,
    /// A replay of it.
    Replay,
}

/// The store of the rows so far.
#[derive(Drop)]
pub struct Stores {
    stored: Stored,
    store: Option<Store>,
    /// The calls that have ended, by their names; none once one is committed.
    ended: BTreeMap<String, Option<Finished>>,
    sealed: Option<Sealed>,
}

/// What shows of a store: its committed calls, its low mark, and the versions of the local states of X and Y, of
/// application 1, and of its key `v`.
#[derive(Clone, Copy, PartialEq, Eq)]
pub struct Seen {
    entries: usize,
    low: u64,
    versions: [usize; 4],
}

const NOTHING: Seen = Seen {
    entries: 0,
    low: 0,
    versions: [0; 4],
};

const X: Address = Address([1; 32]);

const Y: Address = Address([2; 32]);

fn seen_of(store: &Store) -> Seen {
    let key = match StateKey::of(b"v") {
        Some(key) => store.versions(&Item::Key(1, key)),
        None => 0,
    };
    Seen {
        entries: store.entries().len(),
        low: store.low(),
        versions: [
            store.versions(&Item::Local(X, 1)),
            store.versions(&Item::Local(Y, 1)),
            store.versions(&Item::App(1)),
            key,
        ],
    }
}

/// Whether a ticket's attempt is live: its call does not begin, and no ticket of another timestamp reads.
fn is_live(store: &mut Store, ticket: &Ticket) -> bool {
    let other = Ticket {
        number: ticket.number,
        timestamp: ticket.timestamp.saturating_add(1),
    };
    matches!(
        store.begin(ticket.number),
        Err(Failure::Fault(BeginFault::Taken))
    ) && matches!(
        store.read(&other, Item::NextApp),
        Err(Failure::Fault(ReadFault::Unknown))
    )
}

impl Stores {
    /// No store.
    pub fn new(alloc: Global) -> Result<Stores, AllocError> {
        let stored = Stored {
            base: Ledger::new(alloc),
            calls: Arc::new(alloc, Vec::new(alloc))?,
        };
        Ok(Stores {
            stored,
            store: None,
            ended: BTreeMap::new(alloc),
            sealed: None,
        })
    }

    /// What shows of the store.
    pub fn seen(&self) -> Seen {
        match &self.store {
            Some(store) => seen_of(store),
            None => NOTHING,
        }
    }

    /// Whether all is as before a step to which memory was refused.
    pub fn is_as_before(
        &mut self,
        alloc: Global,
        before: &Seen,
        step: &Step,
    ) -> Result<bool, Fail> {
        if let Step::Store(StoreEvent::Unmarked(_ticket, name, _item)) = step {
            return self.is_in_time(alloc, name.as_str());
        }
        let same = self.seen() == *before;
        let ticket = match step {
            Step::Store(StoreEvent::Run(ticket, _name)) => ticket,
            Step::Store(StoreEvent::Commit(ticket, _name)) => ticket,
            _ => return Ok(same),
        };
        match &mut self.store {
            Some(store) => Ok(same && is_live(store, ticket)),
            None => Ok(same),
        }
    }

    /// Whether the call of a name, which call 1 is, commits at timestamp 1.
    fn is_in_time(&mut self, alloc: Global, name: &str) -> Result<bool, Fail> {
        let ticket = Ticket {
            number: 1,
            timestamp: 1,
        };
        match self.commit(alloc, &ticket, name) {
            Ok(Said::Commits(_timestamp)) => Ok(true),
            Ok(_) => Ok(false),
            Err(_) => Err("memory is refused twice".into()),
        }
    }

    /// Does what a row says, or nothing where memory is refused in it.
    pub fn carry_out<O: Op>(
        &mut self,
        alloc: Global,
        ops: &FullOps<O>,
        event: &StoreEvent,
    ) -> Result<Said, AllocError> {
        match event {
            StoreEvent::Open(stored) => self.open(alloc, stored),
            StoreEvent::Plain(stored) => plain::<Brand, O>(alloc, ops, stored, Blank::new(2)),
            StoreEvent::Events(stored, events) => self.run_events(alloc, ops, stored, events),
            StoreEvent::Run(ticket, name) => self.run(alloc, ops, ticket, name.as_str()),
            StoreEvent::Commit(ticket, name) => self.commit(alloc, ticket, name.as_str()),
            StoreEvent::IsOf => self.is_of(alloc),
            StoreEvent::Seal => self.seal(alloc),
            StoreEvent::Block => block_text(alloc, &self.sealed),
            StoreEvent::Replay => replay_text(alloc, ops, &self.stored.base, &self.sealed),
            _ => match &mut self.store {
                Some(store) => on_store(alloc, ops, store, event),
                None => Ok(Said::Word("no store")),
            },
        }
    }

    fn open(&mut self, alloc: Global, stored: &Stored) -> Result<Said, AllocError> {
        self.stored = stored.copied()?;
        let Stored { base, calls } = stored.copied()?;
        match Store::open(alloc, base, HEADER, calls) {
            Ok(store) => {
                self.store = Some(store);
                Ok(Said::Word("opened"))
            }
            Err(failure) => {
                let fault = failure.into_fault()?;
                Ok(Said::Text(format!(in alloc; "{fault:?}")?))
            }
        }
    }

    fn run_events<O: Op>(
        &mut self,
        alloc: Global,
        ops: &FullOps<O>,
        stored: &Stored,
        events: &[Event],
    ) -> Result<Said, AllocError> {
        self.stored = stored.copied()?;
        let World { store, workers } = world_after(alloc, ops, stored, events)?;
        let said = self.keep_workers(alloc, workers)?;
        self.store = Some(store);
        Ok(said)
    }

    /// What each worker does. Where its call has ended, that is named by the worker: `w0`.
    fn keep_workers(
        &mut self,
        alloc: Global,
        mut workers: Vec<Worker>,
    ) -> Result<Said, AllocError> {
        let mut text = String::new(alloc);
        workers.reverse();
        for number in 0..workers.len() {
            let Some(worker) = workers.pop() else {
                break;
            };
            text.push_str(worker_text(alloc, &worker)?.as_str())?;
            self.keep_worker(alloc, number, worker)?;
        }
        Ok(Said::Text(text))
    }

    fn keep_worker(
        &mut self,
        alloc: Global,
        number: usize,
        worker: Worker,
    ) -> Result<(), AllocError> {
        match worker {
            Worker::Finished {
                ticket: _,
                finished,
            } => { self.keep(format!(in alloc; "w{number}")?, finished) }
            _ => Ok(()),
        }
    }

    /// Keeps the end of a call under a name.
    fn keep(&mut self, name: String, finished: Finished) -> Result<(), AllocError> {
        self.ended.insert(name, Some(finished))?;
        Ok(())
    }

    fn run<O: Op>(
        &mut self,
        alloc: Global,
        ops: &FullOps<O>,
        ticket: &Ticket,
        name: &str,
    ) -> Result<Said, AllocError> {
        let Some(store) = &mut self.store else {
            return Ok(Said::Word("no store"));
        };
        match finished::<Brand, O>(alloc, ops, store, ticket, Blank::new(2))? {
            Some(finished) => {
                let said = Said::Ends(finished.outcome(), finished.reads().len());
                self.keep(String::from_str(alloc, name)?, finished)?;
                Ok(said)
            }
            None => Ok(Said::Word("no end")),
        }
    }

    fn commit(&mut self, alloc: Global, ticket: &Ticket, name: &str) -> Result<Said, AllocError> {
        let Some(store) = &mut self.store else {
            return Ok(Said::Word("no store"));
        };
        let Some(ended) = self.ended.get_mut(name) else {
            return Ok(Said::Word("no such end"));
        };
        commit(alloc, store, ticket, ended)
    }

    fn is_of(&self, alloc: Global) -> Result<Said, AllocError> {
        let Some(store) = &self.store else {
            return Ok(Said::Word("no store"));
        };
        let base = &self.stored.base;
        let calls = self.stored.calls.as_slice();
        let later = Header { round: 1, ..HEADER };
        let own = store.is_of(base, &HEADER, calls);
        let of_later = store.is_of(base, &later, calls);
        let of_none = store.is_of(base, &HEADER, &[]);
        let of_other = store.is_of(&other_ledger(alloc), &HEADER, calls);
        Ok(Said::Text(format!(in alloc;
            "own {own}, header {of_later}, calls {of_none}, ledger {of_other}"
        )?))
    }

    fn seal(&mut self, alloc: Global) -> Result<Said, AllocError> {
        let Some(store) = self.store.take() else {
            return Ok(Said::Word("no store"));
        };
        match store.seal(alloc) {
            Ok(sealed) => {
                self.sealed = Some(sealed);
                Ok(Said::Word("sealed"))
            }
            Err(refused) => {
                self.store = Some(refused.store);
                match refused.error {
                    Failure::Fault(fault) => Ok(Said::Word(fault.name())),
                    Failure::Memory => Err(AllocError),
                }
            }
        }
    }
}

impl Stored {
    /// The same ledger and calls.
    pub fn copied(&self) -> Result<Stored, AllocError> {
        Ok(Stored {
            base: self.base.clone()?,
            calls: Arc::try_clone(&self.calls)?,
        })
    }
}

/// The empty ledger with another next id.
pub fn other_ledger(alloc: Global) -> Ledger {
    let mut other = Ledger::new(alloc).open();
    other.set_next_id(9);
    other.close()
}

fn plain<L: ledger::Ledger, O: Op>(
    alloc: Global,
    ops: &FullOps<O>,
    stored: &Stored,
    blank: Blank,
) -> Result<Said, AllocError>
    requires blank { (blank.name ≡ L.name) × (blank.parts ≡ L.parts) × (blank.parts ≡ 2) }
{
    let mut executions = Executions::<L>::new(blank);
    match stored.calls.first() {
        Some(call) => {
            let context = RunContext {
                alloc,
                ops,
                header: &HEADER,
            };
            let (outcome, after) = call_plain(&context, &stored.base, call, &mut executions)?;
            let digits = digits_of(alloc, &after)?;
            Ok(Said::Text(format!(in alloc; "{outcome:?} {digits}")?))
        }
        None => Ok(Said::Word("no call")),
    }
}

fn world_after<O: Op>(
    alloc: Global,
    ops: &FullOps<O>,
    stored: &Stored,
    events: &[Event],
) -> Result<World, AllocError> {
    let calls = store_calls(alloc, HEADER, stored)?;
    let base = stored.base.clone()?;
    run_events(&Tools { alloc, ops }, base, HEADER, calls, events)
}

/// The calls, where a store opens for them, which says that they are few, each of the header's profile.
fn store_calls(alloc: Global, header: Header, stored: &Stored) -> Result<Arc<Vec<Call>>, AllocError>
    ensures { IfOk result (λ calls. calls_fault header (arc_value calls).items ≡ None) }
{
    let own = Arc::try_clone(&stored.calls)?;
    match Store::open(alloc, stored.base.clone()?, header, own) {
        Ok(_store) => Arc::try_clone(&stored.calls),
        Err(_) => Err(AllocError),
    }
}

fn worker_text(alloc: Global, worker: &Worker) -> Result<String, AllocError> {
    match worker {
        Worker::Idle => String::from_str(alloc, " idle"),
        Worker::Running {
            ticket,
            run: _run,
            asks,
        } => {
            let asks = item_text(alloc, asks)?;
            format!(in alloc;
                " [call {} at {} asks for {asks}]",
                ticket.number, ticket.timestamp
            )
        }
        Worker::Finished {
            ticket,
            finished: _finished,
        } => format!(in alloc;
            " [call {} at {} has ended]",
            ticket.number, ticket.timestamp
        ),
    }
}

/// Runs a call to its end, over what its live attempt reads; none where it is not live.
fn finished<L: ledger::Ledger, O: Op>(
    alloc: Global,
    ops: &FullOps<O>,
    store: &mut Store,
    ticket: &Ticket,
    blank: Blank,
) -> Result<Option<Finished>, AllocError>
    requires blank { (blank.name ≡ L.name) × (blank.parts ≡ L.parts) × (blank.parts ≡ 2) }
{
    let mut executions = Executions::<L>::new(blank);
    let mut run = match store.call(ticket.number) {
        Some(call) => CallRun::start(alloc, call, &HEADER, None)?,
        None => return Ok(None),
    };
    for _item in 0..16 {
        match run.advance(alloc, ops, &mut executions) {
            Ok(Advance::Done(finished)) => return Ok(Some(finished)),
            Ok(Advance::Need(item)) => {
                if !is_supplied(store, ticket, &mut run, item)? {
                    return Ok(None);
                }
            }
            Err(_) => return Err(AllocError),
        }
    }
    Ok(None)
}

fn is_supplied(
    store: &mut Store,
    ticket: &Ticket,
    run: &mut CallRun,
    item: Item,
) -> Result<bool, AllocError> {
    match store.read(ticket, item.copied()) {
        Ok(value) => match run.supply(item, value) {
            Ok(()) => Ok(true),
            Err(_) => Err(AllocError),
        },
        Err(Failure::Fault(_unknown)) => Ok(false),
        Err(Failure::Memory) => Err(AllocError),
    }
}

/// Commits an end by a ticket. What is refused is kept.
fn commit(
    alloc: Global,
    store: &mut Store,
    ticket: &Ticket,
    ended: &mut Option<Finished>,
) -> Result<Said, AllocError> {
    let Some(finished) = ended.take() else {
        return Ok(Said::Word("no such end"));
    };
    match store.commit(ticket, finished) {
        Ok(timestamp) => Ok(Said::Commits(timestamp)),
        Err(refused) => {
            *ended = Some(refused.finished);
            commit_refusal(alloc, &refused.error.into_fault()?)
        }
    }
}

fn commit_refusal(alloc: Global, fault: &CommitFault) -> Result<Said, AllocError> {
    match fault {
        CommitFault::Late {
            item,
            version,
            mark,
        } => late_text(alloc, item, *version, *mark),
        _ => Ok(Said::Word(fault.name())),
    }
}

/// An event of the store alone, or a look.
fn on_store<O: Op>(
    alloc: Global,
    ops: &FullOps<O>,
    store: &mut Store,
    event: &StoreEvent,
) -> Result<Said, AllocError> {
    match event {
        StoreEvent::Begin(number) => begin(store, *number),
        StoreEvent::Read(ticket, item) => read(alloc, store, ticket, item),
        StoreEvent::Unmarked(ticket, _name, item) => reads(store, ticket, item),
        StoreEvent::Abandon(ticket) => match store.abandon(ticket) {
            Ok(()) => Ok(Said::Word("abandoned")),
            Err(fault) => Ok(Said::Word(fault.name())),
        },
        StoreEvent::Prune(timestamp) => {
            store.prune(*timestamp);
            Ok(Said::Low(store.low()))
        }
        StoreEvent::Versions(item) => {
            Ok(Said::Text(format!(in alloc; "{}", store.versions(item))?))
        }
        StoreEvent::Entries => entries_text(alloc, store.entries()).map(Said::Text),
        StoreEvent::State(timestamp) => match store.state_at(alloc, *timestamp) {
            Ok(ledger) => digits_of(alloc, &ledger).map(Said::Text),
            Err(failure) => Ok(Said::Word(failure.into_fault()?.name())),
        },
        StoreEvent::Debug(entry, steps) => debug(alloc, ops, store, *entry, *steps),
        StoreEvent::Past(entry, timestamp) => past(alloc, ops, store, *entry, *timestamp),
        _ => Ok(Said::Word("no event of a store")),
    }
}

fn begin(store: &mut Store, number: u32) -> Result<Said, AllocError> {
    match store.begin(number) {
        Ok(ticket) => Ok(Said::Begins(ticket.timestamp)),
        Err(failure) => Ok(Said::Word(failure.into_fault()?.name())),
    }
}

fn read(
    alloc: Global,
    store: &mut Store,
    ticket: &Ticket,
    item: &Item,
) -> Result<Said, AllocError> {
    match store.read(ticket, item.copied()) {
        Ok(value) => value_text(alloc, &value).map(Said::Text),
        Err(failure) => Ok(Said::Word(failure.into_fault()?.name())),
    }
}

/// A read that is told without a growth of memory, since none comes behind its mark.
fn reads(store: &mut Store, ticket: &Ticket, item: &Item) -> Result<Said, AllocError> {
    match store.read(ticket, item.copied()) {
        Ok(_value) => Ok(Said::Word("reads")),
        Err(failure) => Ok(Said::Word(failure.into_fault()?.name())),
    }
}

/// Where the program of a committed call stands after so many steps.
fn debug<O: Op>(
    alloc: Global,
    ops: &FullOps<O>,
    store: &Store,
    entry: usize,
    steps: usize,
) -> Result<Said, AllocError> {
    match Debugger::open(alloc, Source::Live(store), entry, ops) {
        Ok(debugger) => {
            let mut debugger = debugger;
            place_after(alloc, ops, &mut debugger, steps)
        }
        Err(failure) => Ok(Said::Word(failure.into_fault()?.name())),
    }
}

fn place_after<O: Op>(
    alloc: Global,
    ops: &FullOps<O>,
    debugger: &mut Debugger<'_>,
    steps: usize,
) -> Result<Said, AllocError> {
    for _step in 0..steps {
        match debugger.step(alloc, ops) {
            Ok(()) => {}
            Err(failure) => return Ok(Said::Word(failure.into_fault()?.name())),
        }
    }
    match debugger.view(alloc) {
        Ok(view) => Ok(Said::Text(format!(in alloc; "place {}", view.place)?)),
        Err(_) => Err(AllocError),
    }
}

/// The ledger of a timestamp, by the debugger of an entry, or by none.
fn past<O: Op>(
    alloc: Global,
    ops: &FullOps<O>,
    store: &Store,
    entry: usize,
    timestamp: u64,
) -> Result<Said, AllocError> {
    if entry == 0 {
        return past_text(alloc, state_of(alloc, Source::Live(store), timestamp, ops));
    }
    match Debugger::open(alloc, Source::Live(store), entry, ops) {
        Ok(debugger) => past_text(alloc, debugger.state(alloc, timestamp, ops)),
        Err(failure) => Ok(Said::Word(failure.into_fault()?.name())),
    }
}

fn past_text(alloc: Global, past: Result<Ledger, PastError>) -> Result<Said, AllocError> {
    match past {
        Ok(ledger) => digits_of(alloc, &ledger).map(Said::Text),
        Err(failure) => Ok(Said::Word(failure.into_fault()?.name())),
    }
}
