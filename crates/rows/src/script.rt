//! How rows of stores read.
//!
//! - `# TEXT` is a heading. `| TEXT` adds a line to a source, which `program NAME` assembles; it tells the bytes.
//! - `ledger PIECES` puts a ledger in place, which it tells whole, and `call WORDS` adds a call by the words of `sample_calls`.
//! - `plain` makes the one call on the ledger, and tells the outcome and the ledger after.
//! - `open` opens a store over the ledger, for the calls, `parts` a journal with its shards; the calls are then gone.
//! - Rows that begin with `journal` are events of the journal, all others are of the store.

use crate::stores::{StoreEvent, Stored};
use avm_call::Call;
use avm_ledger::Ledger;
use mv_core::{Event, Ticket};
use sample_calls::calls::call;
use sample_calls::programs::Programs;
use sample_calls::words::{call_number, item, joined, number, word};
use std::alloc::Global;
use std::mem;
use std::sync::Arc;
use std::test::Fail;

/// A row: its line, and what it does.
#[derive(Drop)]
pub struct Row {
    pub line: String,
    pub step: Step,
}

/// What a row does.
#[derive(Drop)]
pub enum Step {
    Store(StoreEvent),
    /// A journal opens over these.
    Parts(Stored),
    /// What the line says of the journal.
    Journal,
    /// Nothing more, since reading it has told the answer; a heading has none.
    Told(Option<String>),
}

/// What rows have said so far.
#[derive(Drop)]
struct Said {
    source: Vec<u8>,
    programs: Programs,
    base: Ledger,
    calls: Vec<Call>,
}

/// The rows that these lines are.
pub fn rows(alloc: Global, lines: Vec<String>) -> Result<Vec<Row>, Fail> {
    let mut said = Said {
        source: Vec::new(alloc),
        programs: Programs::new(alloc),
        base: Ledger::new(alloc),
        calls: Vec::new(alloc),
    };
    let mut rows = Vec::new(alloc);
    for line in lines {
        if let Some(step) = step_of(alloc, &mut said, line.as_str())? {
            rows.push(Row { line, step })?;
        }
    }
    Ok(rows)
}

/// What a line does, or nothing where it only adds to what was said.
fn step_of(alloc: Global, said: &mut Said, line: &str) -> Result<Option<Step>, Fail> {
    let (head, rest) = line.split_once(' ').unwrap_or((line, ""));
    if head == "|" {
        said.source.extend_from_slice(rest.as_bytes())?;
        said.source.push(b'\n')?;
        return Ok(None);
    }
    let words: Vec<&str> = rest.split_whitespace().collect(alloc)?;
    let words = words.as_slice();
    if head == "call" {
        said.calls.push(call(alloc, &said.programs, words)?)?;
        return Ok(None);
    }
    step_by_words(alloc, said, head, words).map(Some)
}

fn step_by_words(alloc: Global, said: &mut Said, head: &str, words: &[&str]) -> Result<Step, Fail> {
    match head {
        "#" => Ok(Step::Told(None)),
        "program" => program_of(alloc, said, words),
        "ledger" => ledger_of(alloc, said, words),
        "journal" => Ok(Step::Journal),
        "parts" => stored(alloc, said).map(Step::Parts),
        _ => store_event(alloc, said, head, words).map(Step::Store),
    }
}

fn program_of(alloc: Global, said: &mut Said, words: &[&str]) -> Result<Step, Fail> {
    let source = mem::replace(&mut said.source, Vec::new(alloc));
    let digits = said
        .programs
        .assemble(alloc, word(words, 0)?, source.as_slice())?;
    Ok(Step::Told(Some(digits)))
}

fn ledger_of(alloc: Global, said: &mut Said, words: &[&str]) -> Result<Step, Fail> {
    let bytes = joined(alloc, &said.programs, words)?;
    match Ledger::read(alloc, bytes.as_slice()) {
        Ok(ledger) => said.base = ledger,
        Err(_) => return Err("these bytes are a ledger".into()),
    }
    let digits = hex::encode(alloc, said.base.canonical(alloc)?.as_slice())?;
    Ok(Step::Told(Some(digits)))
}

/// The ledger, and the calls, which are taken.
fn stored(alloc: Global, said: &mut Said) -> Result<Stored, Fail> {
    let base = said.base.clone()?;
    let calls = mem::replace(&mut said.calls, Vec::new(alloc));
    let calls = Arc::new(alloc, calls)?;
    Ok(Stored { base, calls })
}

fn store_event(
    alloc: Global,
    said: &mut Said,
    head: &str,
    words: &[&str],
) -> Result<StoreEvent, Fail> {
    match head {
        "open" => stored(alloc, said).map(StoreEvent::Open),
        "plain" => stored(alloc, said).map(StoreEvent::Plain),
        "events" => store_after(alloc, said, words),
        "begin" => call_number(words, 0).map(StoreEvent::Begin),
        "read" => read_by(alloc, words),
        "unmarked" => unmarked(alloc, words),
        "run" => named(alloc, words).map(|(ticket, name)| StoreEvent::Run(ticket, name)),
        "commit" => named(alloc, words).map(|(ticket, name)| StoreEvent::Commit(ticket, name)),
        "abandon" => ticket(words).map(StoreEvent::Abandon),
        "prune" => number(words, 0).map(StoreEvent::Prune),
        "versions" => item(alloc, words, 0).map(StoreEvent::Versions),
        "state" => number(words, 0).map(StoreEvent::State),
        "debug" => numbers(words).map(|(entry, steps)| StoreEvent::Debug(
            entry as usize,
            steps as usize,
        )),
        "past" => numbers(words).map(|(entry, timestamp)| StoreEvent::Past(
            entry as usize,
            timestamp,
        )),
        "entries" => Ok(StoreEvent::Entries),
        "is_of" => Ok(StoreEvent::IsOf),
        "seal" => Ok(StoreEvent::Seal),
        "block" => Ok(StoreEvent::Block),
        "replay" => Ok(StoreEvent::Replay),
        _ => Err("there is no such row".into()),
    }
}

fn store_after(alloc: Global, said: &mut Said, words: &[&str]) -> Result<StoreEvent, Fail> {
    let events = events_of(alloc, words)?;
    Ok(StoreEvent::Events(stored(alloc, said)?, events))
}

fn read_by(alloc: Global, words: &[&str]) -> Result<StoreEvent, Fail> {
    Ok(StoreEvent::Read(ticket(words)?, item(alloc, words, 2)?))
}

fn unmarked(alloc: Global, words: &[&str]) -> Result<StoreEvent, Fail> {
    let (ticket, name) = named(alloc, words)?;
    Ok(StoreEvent::Unmarked(ticket, name, item(alloc, words, 3)?))
}

/// A ticket, and the name behind it.
fn named(alloc: Global, words: &[&str]) -> Result<(Ticket, String), Fail> {
    Ok((ticket(words)?, name(alloc, words, 2)?))
}

fn numbers(words: &[&str]) -> Result<(u64, u64), Fail> {
    Ok((number(words, 0)?, number(words, 1)?))
}

fn ticket(words: &[&str]) -> Result<Ticket, Fail> {
    Ok(Ticket {
        number: call_number(words, 0)?,
        timestamp: number(words, 1)?,
    })
}

/// The name of a call that has ended.
fn name(alloc: Global, words: &[&str], index: usize) -> Result<String, Fail> {
    Ok(String::from_str(alloc, word(words, index)?)?)
}

/// Events of workers, one a word: `b0:1` has worker 0 begin call 1, `r0` read, `c0` commit, `a0` abandon; `p9` is a prune.
fn events_of(alloc: Global, words: &[&str]) -> Result<Vec<Event>, Fail> {
    let mut events = Vec::new(alloc);
    for word in words {
        events.push(event_of(word)?)?;
    }
    Ok(events)
}

fn event_of(word: &str) -> Result<Event, Fail> {
    if let Some(rest) = word.strip_prefix("b") {
        let (worker, number) = rest.split_once(':').unwrap_or((rest, ""));
        Ok(Event::Begin(worker_of(worker)?, number.parse::<u32>()?))
    } else if let Some(rest) = word.strip_prefix("r") {
        worker_of(rest).map(Event::Read)
    } else if let Some(rest) = word.strip_prefix("c") {
        worker_of(rest).map(Event::Commit)
    } else if let Some(rest) = word.strip_prefix("a") {
        worker_of(rest).map(Event::Abandon)
    } else if let Some(rest) = word.strip_prefix("p") {
        Ok(Event::Prune(rest.parse::<u64>()?))
    } else {
        Err("there is no such event".into())
    }
}

fn worker_of(word: &str) -> Result<u8, Fail> {
    Ok(word.parse::<u8>()?)
}
