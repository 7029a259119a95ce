//! Events of a journal and its shards, and looks at them, by rows that begin with `journal` and name attempts:
//! - `begin NAME NUMBER` begins a call, and `stranger NAME NUMBER TIMESTAMP` is an attempt that no journal has begun;
//! - `run NAME` reads all that the call of an attempt asks for, and `read NAME ITEM` one item;
//! - `commit NAME`, `abandon NAME`, and `attempt NAME`: whether it is live, and how much it has read;
//! - `prune TIMESTAMP`, and `shards TIMESTAMP` prunes the shards alone;
//! - `find TIMESTAMP ITEM` tells what an attempt at a timestamp finds, and `shard INDEX TIMESTAMP ITEM` the same by one shard,
//!   which is taken from the others;
//! - `versions ITEM`, `look`, which tells the clock, the low mark and the entries, and `state TIMESTAMP`, the ledger then;
//! - `is_of`: whether the journal is of its ledger, header and calls, and of another header, no calls and another ledger;
//! - `seal`, and then `block` and `replay`.

ghost use Rattle.std.specs.Prelude.{◌≡◌, [], IfOk};
ghost use Rattle.avm_items.specs.declared.item_value.ItemValue.TheVariants.{Absent};
ghost use Rattle.avm_items.specs.Items.{with_item};

use crate::item_texts::{digits_of, entries_text, item_text, late_text, value_text};
use crate::sealed::{block_text, replay_text};
use crate::store_answers::Said;
use crate::stores::{Stored, other_ledger};
use avm_call::Call;
use avm_items::{Item, ItemMap, ItemValue};
use avm_ledger::Header;
use avm_ops::Op;
use avm_run::{Advance, CallRun, Executions, Finished, FullOps};
use mv_parts::{CommitFault, Journal, RefusedCommit, Sealed, open_parts};
use mv_shards::{Attempt, Held, Shard};
use sample_calls::calls::HEADER;
use sample_calls::words::{call_number, item, number, word};
use std::alloc::{AllocError, Global};
use std::collections::BTreeMap;
use std::marker::Brand;
use std::sync::ledger::{Blank, Ledger};
use std::test::Fail;
use teal_value::Failure;

const NO_JOURNAL: &str = "no journal";

const NO_ATTEMPT: &str = "no such attempt";

/// A journal and its shards.
#[derive(Drop)]
struct Parts {
    journal: Journal,
    held: Held,
}

/// An attempt, and what its call has come to.
#[derive(Drop)]
struct Tried {
    attempt: Option<Attempt>,
    finished: Option<Finished>,
}

/// The journal of the rows so far.
#[derive(Drop)]
pub struct Journals {
    stored: Option<Stored>,
    parts: Option<Parts>,
    /// The attempts, by their names.
    tried: BTreeMap<String, Tried>,
    sealed: Option<Sealed>,
    /// A shard that was taken.
    alone: Option<Shard>,
}

impl Journals {
    /// No journal.
    pub fn new(alloc: Global) -> Journals {
        Journals {
            stored: None,
            parts: None,
            tried: BTreeMap::new(alloc),
            sealed: None,
            alone: None,
        }
    }

    /// Does what the words of a row say.
    pub fn carry_out<O: Op>(
        &mut self,
        alloc: Global,
        ops: &FullOps<O>,
        words: &[&str],
    ) -> Result<Said, Fail> {
        match word(words, 0)? {
            "begin" => self.begin(alloc, words),
            "stranger" => self.stranger(alloc, words),
            "run" => self.run(alloc, ops, word(words, 1)?),
            "read" => self.read(alloc, words),
            "commit" => self.commit(alloc, word(words, 1)?),
            "abandon" => self.abandon(word(words, 1)?),
            "attempt" => self.attempt(alloc, word(words, 1)?),
            "is_of" => Ok(self.is_of(alloc)?),
            "seal" => Ok(self.seal(alloc)?),
            "block" => Ok(block_text(alloc, &self.sealed)?),
            "replay" => self.replay(alloc, ops),
            "shard" => self.in_shard(alloc, words),
            head => match &mut self.parts {
                Some(parts) => on_parts(alloc, parts, head, words),
                None => Ok(Said::Word(NO_JOURNAL)),
            },
        }
    }

    /// Opens a journal and its shards.
    pub fn open(&mut self, alloc: Global, stored: &Stored) -> Result<Said, AllocError> {
        self.stored = Some(stored.copied()?);
        let Stored { base, calls } = stored.copied()?;
        match open_parts(alloc, base, HEADER, calls) {
            Ok((journal, held)) => {
                self.parts = Some(Parts { journal, held });
                Ok(Said::Word("opened"))
            }
            Err(failure) => {
                let fault = failure.into_fault()?;
                Ok(Said::Text(format!(in alloc; "{fault:?}")?))
            }
        }
    }

    /// Keeps an attempt under a name.
    fn keep(&mut self, alloc: Global, name: &str, attempt: Attempt) -> Result<(), AllocError> {
        let tried = Tried {
            attempt: Some(attempt),
            finished: None,
        };
        self.tried.insert(String::from_str(alloc, name)?, tried)?;
        Ok(())
    }

    fn begin(&mut self, alloc: Global, words: &[&str]) -> Result<Said, Fail> {
        let (name, number) = (word(words, 1)?, call_number(words, 2)?);
        let Some(parts) = &mut self.parts else {
            return Ok(Said::Word(NO_JOURNAL));
        };
        match parts.journal.begin(number) {
            Ok(attempt) => {
                let timestamp = attempt.timestamp();
                self.keep(alloc, name, attempt)?;
                Ok(Said::Begins(timestamp))
            }
            Err(failure) => Ok(Said::Word(failure.into_fault()?.name())),
        }
    }

    fn stranger(&mut self, alloc: Global, words: &[&str]) -> Result<Said, Fail> {
        let (number, timestamp) = (call_number(words, 2)?, number(words, 3)?);
        if timestamp == 0 {
            return Ok(Said::Word("timestamps begin at 1"));
        }
        self.keep(
            alloc,
            word(words, 1)?,
            Attempt::new(alloc, number, timestamp),
        )?;
        Ok(Said::Word("a stranger"))
    }

    fn run<O: Op>(&mut self, alloc: Global, ops: &FullOps<O>, name: &str) -> Result<Said, Fail> {
        match (&mut self.parts, self.tried.get_mut(name)) {
            (Some(parts), Some(tried)) => Ok(run(alloc, ops, parts, tried)?),
            (None, _) => Ok(Said::Word(NO_JOURNAL)),
            (_, None) => Ok(Said::Word(NO_ATTEMPT)),
        }
    }

    fn read(&mut self, alloc: Global, words: &[&str]) -> Result<Said, Fail> {
        let item = item(alloc, words, 2)?;
        match (&mut self.parts, self.tried.get_mut(word(words, 1)?)) {
            (Some(parts), Some(tried)) => Ok(read_by(alloc, &mut parts.held, tried, &item)?),
            (None, _) => Ok(Said::Word(NO_JOURNAL)),
            (_, None) => Ok(Said::Word(NO_ATTEMPT)),
        }
    }

    fn commit(&mut self, alloc: Global, name: &str) -> Result<Said, Fail> {
        match (&mut self.parts, self.tried.get_mut(name)) {
            (Some(parts), Some(tried)) => Ok(commit(alloc, parts, tried)?),
            (None, _) => Ok(Said::Word(NO_JOURNAL)),
            (_, None) => Ok(Said::Word(NO_ATTEMPT)),
        }
    }

    fn abandon(&mut self, name: &str) -> Result<Said, Fail> {
        match (&mut self.parts, self.tried.get_mut(name)) {
            (Some(parts), Some(tried)) => Ok(abandon(&mut parts.journal, tried)),
            (None, _) => Ok(Said::Word(NO_JOURNAL)),
            (_, None) => Ok(Said::Word(NO_ATTEMPT)),
        }
    }

    fn attempt(&mut self, alloc: Global, name: &str) -> Result<Said, Fail> {
        match (&self.parts, self.tried.get(name)) {
            (Some(parts), Some(tried)) => Ok(attempt_text(alloc, &parts.journal, tried)?),
            (None, _) => Ok(Said::Word(NO_JOURNAL)),
            (_, None) => Ok(Said::Word(NO_ATTEMPT)),
        }
    }

    fn is_of(&self, alloc: Global) -> Result<Said, AllocError> {
        let (Some(parts), Some(stored)) = (&self.parts, &self.stored) else {
            return Ok(Said::Word(NO_JOURNAL));
        };
        let journal = &parts.journal;
        let base = &stored.base;
        let calls = stored.calls.as_slice();
        let later = Header { round: 1, ..HEADER };
        let own = journal.is_of(base, &HEADER, calls);
        let of_later = journal.is_of(base, &later, calls);
        let of_none = journal.is_of(base, &HEADER, &[]);
        let of_other = journal.is_of(&other_ledger(alloc), &HEADER, calls);
        Ok(Said::Text(format!(in alloc;
            "own {own}, header {of_later}, calls {of_none}, ledger {of_other}"
        )?))
    }

    fn seal(&mut self, alloc: Global) -> Result<Said, AllocError> {
        let Some(parts) = self.parts.take() else {
            return Ok(Said::Word(NO_JOURNAL));
        };
        let Parts { journal, held } = parts;
        match journal.seal(alloc) {
            Ok(sealed) => {
                self.sealed = Some(sealed);
                Ok(Said::Word("sealed"))
            }
            Err(refused) => {
                self.parts = Some(Parts {
                    journal: refused.journal,
                    held,
                });
                match refused.error {
                    Failure::Fault(fault) => Ok(Said::Word(fault.name())),
                    Failure::Memory => Err(AllocError),
                }
            }
        }
    }

    fn replay<O: Op>(&self, alloc: Global, ops: &FullOps<O>) -> Result<Said, Fail> {
        match &self.stored {
            Some(stored) => Ok(replay_text(alloc, ops, &stored.base, &self.sealed)?),
            None => Ok(Said::Word("no block")),
        }
    }

    /// What an attempt at a timestamp finds by a shard alone, which is taken at the first such row, whatever later ones
    /// name.
    fn in_shard(&mut self, alloc: Global, words: &[&str]) -> Result<Said, Fail> {
        let (index, timestamp) = (word(words, 1)?.parse::<u8>()?, number(words, 2)?);
        let item = item(alloc, words, 3)?;
        if self.alone.is_none() {
            if let Some(parts) = &mut self.parts {
                self.alone = taken(&mut parts.held, index);
            }
        }
        match &mut self.alone {
            Some(shard) if timestamp > 0 => {
                let mut attempt = Attempt::new(alloc, 1, timestamp);
                match shard.read(&mut attempt, item) {
                    Ok(value) => Ok(Said::Text(value_text(alloc, &value)?)),
                    Err(failure) => Ok(Said::Word(failure.into_fault()?.name())),
                }
            }
            _ => Ok(Said::Word("no such shard")),
        }
    }
}

/// The shard of an index, with which those behind it are taken.
fn taken(held: &mut Held, index: u8) -> Option<Shard> {
    for _count in 0..16 {
        match held.take() {
            Some(shard) => {
                if shard.index() == index {
                    return Some(shard);
                }
            }
            None => return None,
        }
    }
    None
}

/// An item alone.
fn alone(alloc: Global, item: Item) -> Result<ItemMap, AllocError>
    ensures { IfOk result (λ items. items ≡ with_item [] item Absent) }
{
    let mut items = ItemMap::new(alloc);
    items.insert(item, ItemValue::Absent)?;
    Ok(items)
}

/// What an attempt finds of an item; none where it is asked for below the low mark, or its shard is not held.
fn found(
    alloc: Global,
    held: &mut Held,
    attempt: &mut Attempt,
    item: &Item,
) -> Result<Option<ItemValue>, AllocError> {
    let wanted = alone(alloc, item.copied())?;
    if !held.covers(&wanted) {
        return Ok(None);
    }
    match held.read(attempt, item.copied()) {
        Ok(value) => Ok(Some(value)),
        Err(Failure::Fault(_pruned)) => Ok(None),
        Err(Failure::Memory) => Err(AllocError),
    }
}

fn read(
    alloc: Global,
    held: &mut Held,
    attempt: &mut Attempt,
    item: &Item,
) -> Result<Said, AllocError> {
    match found(alloc, held, attempt, item)? {
        Some(value) => value_text(alloc, &value).map(Said::Text),
        None => Ok(Said::Word("Pruned")),
    }
}

fn read_by(
    alloc: Global,
    held: &mut Held,
    tried: &mut Tried,
    item: &Item,
) -> Result<Said, AllocError> {
    let Some(attempt) = &mut tried.attempt else {
        return Ok(Said::Word(NO_ATTEMPT));
    };
    read(alloc, held, attempt, item)
}

/// Whether an attempt is live, and how many items it has read.
fn attempt_text(alloc: Global, journal: &Journal, tried: &Tried) -> Result<Said, AllocError> {
    match &tried.attempt {
        Some(attempt) => {
            let live = journal.is_live(attempt);
            let reads = attempt.reads().len();
            Ok(Said::Text(format!(in alloc; "live {live}, {reads} reads")?))
        }
        None => Ok(Said::Word(NO_ATTEMPT)),
    }
}

/// The call of an attempt's number runs to its end, over what the attempt reads.
fn run<O: Op>(
    alloc: Global,
    ops: &FullOps<O>,
    parts: &mut Parts,
    tried: &mut Tried,
) -> Result<Said, AllocError> {
    let Some(attempt) = &mut tried.attempt else {
        return Ok(Said::Word(NO_ATTEMPT));
    };
    let end = match parts.journal.call(attempt.number()) {
        Some(call) => {
            let held = &mut parts.held;
            finished::<Brand, O>(alloc, ops, call, held, attempt, Blank::new(2))?
        }
        None => None,
    };
    match end {
        Some(finished) => {
            let said = Said::Ends(finished.outcome(), finished.reads().len());
            tried.finished = Some(finished);
            Ok(said)
        }
        None => Ok(Said::Word("no end")),
    }
}

fn finished<L: Ledger, O: Op>(
    alloc: Global,
    ops: &FullOps<O>,
    call: &Call,
    held: &mut Held,
    attempt: &mut Attempt,
    blank: Blank,
) -> Result<Option<Finished>, AllocError>
    requires blank { (blank.name ≡ L.name) × (blank.parts ≡ L.parts) × (blank.parts ≡ 2) }
{
    let mut executions = Executions::<L>::new(blank);
    let mut run = CallRun::start(alloc, call, &HEADER, None)?;
    for _item in 0..16 {
        match run.advance(alloc, ops, &mut executions) {
            Ok(Advance::Done(finished)) => return Ok(Some(finished)),
            Ok(Advance::Need(item)) => match found(alloc, held, attempt, &item)? {
                Some(value) => {
                    if run.supply(item, value).is_err() {
                        return Err(AllocError);
                    }
                }
                None => return Ok(None),
            },
            Err(_) => return Err(AllocError),
        }
    }
    Ok(None)
}

/// Commits what an attempt's call has come to. What is refused is kept.
fn commit(alloc: Global, parts: &mut Parts, tried: &mut Tried) -> Result<Said, AllocError> {
    let Some(finished) = tried.finished.take() else {
        return Ok(Said::Word("no end"));
    };
    let Some(attempt) = tried.attempt.take() else {
        return Ok(Said::Word("no end"));
    };
    if !parts.held.covers(attempt.reads()) || !parts.held.covers(finished.writes()) {
        tried.attempt = Some(attempt);
        tried.finished = Some(finished);
        return Ok(Said::Word("a shard is not held"));
    }
    match parts.journal.commit(&mut parts.held, attempt, finished) {
        Ok(timestamp) => Ok(Said::Commits(timestamp)),
        Err(refused) => {
            let fault = handed_back(tried, refused)?;
            commit_refusal(alloc, &fault)
        }
    }
}

/// Keeps what a refused commit hands back, and gives what it was refused for.
fn handed_back(tried: &mut Tried, refused: RefusedCommit) -> Result<CommitFault, AllocError> {
    tried.attempt = Some(refused.attempt);
    tried.finished = Some(refused.finished);
    refused.error.into_fault()
}

fn commit_refusal(alloc: Global, fault: &CommitFault) -> Result<Said, AllocError> {
    match fault {
        CommitFault::Late {
            item,
            version,
            mark,
        } => late_text(alloc, item, *version, *mark),
        CommitFault::Moved { item } => {
            let item = item_text(alloc, item)?;
            Ok(Said::Text(format!(in alloc; "moved: {item}")?))
        }
        CommitFault::Foreign { shard } => Ok(Said::Text(format!(in alloc;
            "foreign: shard {shard}"
        )?)),
        _ => Ok(Said::Word(fault.name())),
    }
}

/// Gives up an attempt. One that is not live is kept.
fn abandon(journal: &mut Journal, tried: &mut Tried) -> Said {
    match tried.attempt.take() {
        Some(attempt) => match journal.abandon(attempt) {
            Ok(()) => Said::Word("abandoned"),
            Err(back) => {
                tried.attempt = Some(back);
                Said::Word("not live")
            }
        },
        None => Said::Word(NO_ATTEMPT),
    }
}

/// A prune, or a look.
fn on_parts(alloc: Global, parts: &mut Parts, head: &str, words: &[&str]) -> Result<Said, Fail> {
    match head {
        "prune" => {
            parts.journal.prune(&mut parts.held, number(words, 1)?);
            Ok(Said::Low(parts.journal.low()))
        }
        "shards" => {
            parts.held.prune(number(words, 1)?);
            Ok(Said::Low(parts.journal.low()))
        }
        "find" => find(
            alloc,
            &mut parts.held,
            number(words, 1)?,
            &item(alloc, words, 2)?,
        ),
        "versions" => versions(alloc, &parts.held, &item(alloc, words, 1)?),
        "look" => Ok(look(alloc, &parts.journal)?),
        "state" => {
            let ledger = parts.journal.ledger_at(alloc, number(words, 1)?)?;
            Ok(Said::Text(digits_of(alloc, &ledger)?))
        }
        _ => Err("there is no such row of a journal".into()),
    }
}

fn find(alloc: Global, held: &mut Held, timestamp: u64, item: &Item) -> Result<Said, Fail> {
    if timestamp == 0 {
        return Ok(Said::Word("timestamps begin at 1"));
    }
    let mut attempt = Attempt::new(alloc, 1, timestamp);
    Ok(read(alloc, held, &mut attempt, item)?)
}

fn versions(alloc: Global, held: &Held, item: &Item) -> Result<Said, Fail> {
    let wanted = alone(alloc, item.copied())?;
    if !held.covers(&wanted) {
        return Ok(Said::Word("its shard is not held"));
    }
    Ok(Said::Text(format!(in alloc; "{}", held.version_count(item))?))
}

fn look(alloc: Global, journal: &Journal) -> Result<Said, AllocError> {
    let entries = entries_text(alloc, journal.entries())?;
    let clock = journal.clock();
    let low = journal.low();
    Ok(Said::Text(format!(in alloc; "clock {clock}, low {low}, entries {entries}")?))
}
