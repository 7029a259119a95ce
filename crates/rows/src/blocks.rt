//! Blocks of calls over the ledger in place, by these rows:
//! - `queue COUNT WORDS` takes a call so many times, and `plain PROFILE` makes the calls into a block, one after another; it tells
//!   how they ended, or why they make no block. The ledger in place stays;
//! - `made` tells the block's bytes; `copy` those of a copy of it, and the outcomes of copies of its entries;
//! - `+ ledger` and `+ block` add the digits of the ledger in place and of the block to the input, as lines;
//! - `past TIMESTAMP` tells the ledger of a timestamp of the block, and `past_of ENTRY TIMESTAMP` the same by the debugger of
//!   an entry;
//! - `steps WORDS` makes a run of a call, instruction by instruction, over the ledger: how many there are, where the program
//!   then stands, and how the call ends.

ghost use Rattle.std.specs.Prelude.{◌≡◌};

use crate::ledgers::{Bench, Words, digits_of, profile_of, refusal};
use avm_block::{Block, Entry, encode};
use avm_call::{Call, Outcome};
use avm_debug::{Debugger, PastError, Source, state_of};
use avm_items::item_of;
use avm_ledger::{Header, Ledger};
use avm_ops::Op;
use avm_replay::plain_block;
use avm_run::{Advance, CallRun, Executions, FullOps, Step};
use sample_calls::calls::call;
use sample_calls::words::{number, word};
use std::alloc::Global;
use std::marker::Brand;
use std::mem;
use std::sync::ledger;
use std::sync::ledger::Blank;
use std::test::Fail;

/// The calls that are taken, and the block that was made last.
#[derive(Drop)]
pub struct Blocks {
    calls: Vec<Call>,
    block: Option<Block>,
}

impl Blocks {
    pub fn new(alloc: Global) -> Blocks {
        Blocks {
            calls: Vec::new(alloc),
            block: None,
        }
    }

    /// Takes a call so many times.
    pub fn queue(&mut self, alloc: Global, bench: &Bench, words: &[&str]) -> Result<(), Fail> {
        if let Some((count, words)) = words.split_first() {
            let call = call(alloc, &bench.programs, words)?;
            for _time in 0..count.parse::<u16>()? {
                self.calls.push(call.clone()?)?;
            }
        }
        Ok(())
    }

    /// The line of digits that a row adds to the input.
    pub fn line(&self, alloc: Global, bench: &Bench, word: &str) -> Result<String, Fail> {
        match (word, &self.block) {
            ("ledger", _) => digits_of(alloc, &bench.ledger),
            ("block", Some(block)) => block_digits(alloc, block),
            _ => Err("there is no such line".into()),
        }
    }
}

/// The answer to a row, or nothing where its head is none of these.
pub fn reply<O: Op>(
    alloc: Global,
    ops: &FullOps<O>,
    bench: &Bench,
    blocks: &mut Blocks,
    row: Words,
) -> Result<Option<String>, Fail> {
    match row.head {
        "plain" => plain(alloc, ops, bench, blocks, row.rest).map(Some),
        "steps" => steps(alloc, ops, bench, row.rest).map(Some),
        "made" | "copy" | "past" | "past_of" => match &blocks.block {
            Some(block) => look(alloc, ops, &bench.ledger, block, row).map(Some),
            None => Err("no block is made".into()),
        },
        _ => Ok(None),
    }
}

fn block_digits(alloc: Global, block: &Block) -> Result<String, Fail> {
    Ok(hex::encode(alloc, encode(alloc, block)?.as_slice())?)
}

fn plain<O: Op>(
    alloc: Global,
    ops: &FullOps<O>,
    bench: &Bench,
    blocks: &mut Blocks,
    words: &[&str],
) -> Result<String, Fail> {
    let header = bench.header(profile_of(word(words, 0)?)?);
    let calls = mem::replace(&mut blocks.calls, Vec::new(alloc));
    match plain_block(alloc, &bench.ledger, &header, calls, ops) {
        Ok(block) => {
            let text = outcomes(alloc, block.entries())?;
            blocks.block = Some(block);
            Ok(text)
        }
        Err(failure) => refusal(alloc, failure),
    }
}

fn outcomes(alloc: Global, entries: &[Entry]) -> Result<String, Fail> {
    let mut text = format!(in alloc; "{} calls", entries.len())?;
    for entry in entries {
        let one = format!(in alloc; "; {:?}", entry.outcome)?;
        text.push_str(one.as_str())?;
    }
    Ok(text)
}

fn look<O: Op>(
    alloc: Global,
    ops: &FullOps<O>,
    base: &Ledger,
    block: &Block,
    row: Words,
) -> Result<String, Fail> {
    let words = row.rest;
    match row.head {
        "made" => block_digits(alloc, block),
        "copy" => copy(alloc, block),
        "past" => {
            let source = Source::Block(base, block);
            past_text(alloc, state_of(alloc, source, number(words, 0)?, ops))
        }
        _ => past_of(alloc, ops, base, block, words),
    }
}

/// The bytes of a copy of a block, with how its entries' copies ended.
fn copy(alloc: Global, block: &Block) -> Result<String, Fail> {
    let copy = block.clone()?;
    let mut entries = Vec::new(alloc);
    for entry in copy.entries() {
        entries.push(entry.clone()?)?;
    }
    let digits = block_digits(alloc, &copy)?;
    let ends = outcomes(alloc, entries.as_slice())?;
    Ok(format!(in alloc; "{digits} {ends}")?)
}

fn past_of<O: Op>(
    alloc: Global,
    ops: &FullOps<O>,
    base: &Ledger,
    block: &Block,
    words: &[&str],
) -> Result<String, Fail> {
    let entry = number(words, 0)? as usize;
    let timestamp = number(words, 1)?;
    match Debugger::open(alloc, Source::Block(base, block), entry, ops) {
        Ok(debugger) => past_text(alloc, debugger.state(alloc, timestamp, ops)),
        Err(error) => Ok(format!(in alloc; "{error:?}")?),
    }
}

fn past_text(alloc: Global, past: Result<Ledger, PastError>) -> Result<String, Fail> {
    match past {
        Ok(ledger) => digits_of(alloc, &ledger),
        Err(error) => Ok(format!(in alloc; "{error:?}")?),
    }
}

/// What a step of a run comes to that is supplied with a ledger's items.
enum Turn {
    Moved,
    Supplied,
    Ended(Outcome),
}

fn steps<O: Op>(
    alloc: Global,
    ops: &FullOps<O>,
    bench: &Bench,
    words: &[&str],
) -> Result<String, Fail> {
    let call = call(alloc, &bench.programs, words)?;
    let header = bench.header(call.needs());
    let mut run = started(alloc, &call, &header)?;
    let mut moved = 0u64;
    for _turn in 0..10_000u64 {
        let place = place_text(alloc, &run)?;
        match turned::<Brand, O>(alloc, ops, &bench.ledger, &mut run, Blank::new(2))? {
            Turn::Moved => moved = moved.saturating_add(1),
            Turn::Supplied => {}
            Turn::Ended(outcome) => {
                return Ok(format!(in alloc; "{moved} steps, {place}, {outcome:?}")?);
            }
        }
    }
    Err("a run ends".into())
}

fn started(alloc: Global, call: &Call, header: &Header) -> Result<CallRun, Fail> {
    Ok(CallRun::start(alloc, call, header, None)?)
}

/// Where the program of a run stands, and how many values are on its stack.
fn place_text(alloc: Global, run: &CallRun) -> Result<String, Fail> {
    match run.shown() {
        Some(shown) => {
            Ok(format!(in alloc; "place {} depth {}", shown.place, shown.machine.depth())?)
        }
        None => Ok(String::from_str(alloc, "no program")?),
    }
}

fn turned<L: ledger::Ledger, O: Op>(
    alloc: Global,
    ops: &FullOps<O>,
    ledger: &Ledger,
    run: &mut CallRun,
    blank: Blank,
) -> Result<Turn, Fail>
    requires blank { (blank.name ≡ L.name) × (blank.parts ≡ L.parts) × (blank.parts ≡ 2) }
{
    let mut executions = Executions::<L>::new(blank);
    match run.step_one(alloc, ops, &mut executions) {
        Ok(Step::Moved) => Ok(Turn::Moved),
        Ok(Step::Need(item)) => {
            let value = item_of(ledger, &item)?;
            match run.supply(item, value) {
                Ok(()) => Ok(Turn::Supplied),
                Err(_) => Err("an item that is asked for is taken".into()),
            }
        }
        Ok(Step::Ended(_ended)) => ended(alloc, ops, run, &mut executions),
        Ok(Step::Done(finished)) => Ok(Turn::Ended(finished.outcome())),
        Err(_) => Err("a run steps".into()),
    }
}

/// The outcome of a call whose program has ended.
fn ended<L: ledger::Ledger, O: Op>(
    alloc: Global,
    ops: &FullOps<O>,
    run: &mut CallRun,
    executions: &mut Executions<L>,
) -> Result<Turn, Fail> {
    match run.advance(alloc, ops, executions) {
        Ok(Advance::Done(finished)) => Ok(Turn::Ended(finished.outcome())),
        _ => Err("a call whose program has ended is over".into()),
    }
}
