//! Runs what the other crates offer on stored rows, and prints each row that answers with its answer. The rows are standard
//! input, and the answers, which are worked out outside the program, are the crate's file stdout. A row is a line:
//! - `| TEXT` adds the text and a line feed to the input, and `x DIGITS` adds bytes;
//! - `* NUMBER TEXT` adds the text so many times;
//! - `fail` has the reader fail where the input ends, and `interrupt` has it interrupted there;
//! - `room NUMBER` has the writer fail behind so many bytes;
//! - `$ WORDS` answers the words of a command line to the input, and begins anew;
//! - `case NAME` prints the name of what follows;
//! - the rows of `ledgers`, which make calls on a ledger and read and write bytes;
//! - the rows of `blocks`, which make blocks of calls, and step through calls;
//! - the rows of `texts`, which encode bytes as texts and read them;
//! - `stores` begins the rows of `script`, events of stores and journals, which all that follow are.
//! Others, as `# TEXT`, say nothing.
#![tactic(auto)]

mod blocks;
mod item_texts;
mod journals;
mod ledgers;
mod script;
mod sealed;
mod store_answers;
mod store_rows;
mod stores;
mod streams;
mod texts;

use crate::blocks::Blocks;
use crate::ledgers::{Bench, Words};
use crate::store_rows::carry_out_all;
use crate::streams::{Input, Output};
use avm_commands::answer;
use avm_objects::filled_set;
use avm_ops::{Op, Ops};
use avm_run::FullOps;
use std::alloc::Global;
use std::io::ErrorKind;
use std::test::Fail;

/// What the rows since the last command have said.
#[derive(Drop)]
struct Row {
    bytes: Vec<u8>,
    failure: Option<ErrorKind>,
    room: usize,
}

impl Row {
    fn new(alloc: Global) -> Row {
        Row {
            bytes: Vec::new(alloc),
            failure: None,
            room: usize::MAX,
        }
    }
}

/// All that rows have said so far.
#[derive(Drop)]
struct Said {
    row: Row,
    bench: Bench,
    blocks: Blocks,
    /// The rows of stores, if any has come.
    of_stores: Option<Vec<String>>,
}

impl Said {
    fn new(alloc: Global) -> Said {
        Said {
            row: Row::new(alloc),
            bench: Bench::new(alloc),
            blocks: Blocks::new(alloc),
            of_stores: None,
        }
    }
}

fn main(rt: HostRuntime) -> Result<(), Fail> {
    let ops = filled_set!(rt.alloc(), Err("memory is refused".into()));
    with_full(&rt, ops)
}

/// Carries all rows out, with a set that has to be a full one.
fn with_full<O: Op>(rt: &HostRuntime, ops: Ops<O>) -> Result<(), Fail> {
    match FullOps::of(ops) {
        Ok(ops) => all_rows(rt, &ops),
        Err(_lacking) => Err("an opcode has no object".into()),
    }
}

fn all_rows<O: Op>(rt: &HostRuntime, ops: &FullOps<O>) -> Result<(), Fail> {
    let mut said = Said::new(rt.alloc());
    carry_out_lines(rt, ops, &mut said)?;
    match said.of_stores.take() {
        Some(lines) => carry_out_all(rt, ops, lines),
        None => Ok(()),
    }
}

/// Carries out each row but those of stores, which wait for the end of the lines.
fn carry_out_lines<O: Op>(rt: &HostRuntime, ops: &FullOps<O>, said: &mut Said) -> Result<(), Fail> {
    for line in rt.lines(rt.alloc()) {
        carry_out_line(rt, ops, said, line?)?;
    }
    Ok(())
}

fn carry_out_line<O: Op>(
    rt: &HostRuntime,
    ops: &FullOps<O>,
    said: &mut Said,
    line: String,
) -> Result<(), Fail> {
    if let Some(lines) = &mut said.of_stores {
        lines.push(line)?;
        return Ok(());
    }
    if line.as_str() == "stores" {
        said.of_stores = Some(Vec::new(rt.alloc()));
        return Ok(());
    }
    carry_out(rt, ops, said, line.as_str())
}

/// Carries out a row, and prints it with its answer where it has one.
fn carry_out<O: Op>(
    rt: &HostRuntime,
    ops: &FullOps<O>,
    said: &mut Said,
    line: &str,
) -> Result<(), Fail> {
    let alloc = rt.alloc();
    let (head, rest) = line.split_once(' ').unwrap_or((line, ""));
    if head == "$" {
        println!(rt; "{line}")?;
        let text = answered(alloc, ops, rest, &mut said.row)?;
        println!(rt; "{text}")?;
    } else if head == "case" {
        println!(rt; "{line}")?;
    } else if let Some(text) = reply(alloc, ops, said, head, rest)? {
        println!(rt; "{line}\n= {text}")?;
    }
    Ok(())
}

/// The answer to a row that has one of its own; other rows are done.
fn reply<O: Op>(
    alloc: Global,
    ops: &FullOps<O>,
    said: &mut Said,
    head: &str,
    rest: &str,
) -> Result<Option<String>, Fail> {
    if let Some(text) = texts::reply(alloc, head, rest)? {
        return Ok(Some(text));
    }
    if is_input(alloc, &mut said.row, head, rest)? {
        return Ok(None);
    }
    let words: Vec<&str> = rest.split_whitespace().collect(alloc)?;
    let row = Words {
        head,
        rest: words.as_slice(),
    };
    reply_to_words(alloc, ops, said, row)
}

fn reply_to_words<O: Op>(
    alloc: Global,
    ops: &FullOps<O>,
    said: &mut Said,
    row: Words,
) -> Result<Option<String>, Fail> {
    let bench = &mut said.bench;
    if let Some(text) = ledgers::reply(alloc, ops, bench, &mut said.row.bytes, row)? {
        return Ok(Some(text));
    }
    if let Some(text) = blocks::reply(alloc, ops, bench, &mut said.blocks, row)? {
        return Ok(Some(text));
    }
    match row.head {
        "queue" => said.blocks.queue(alloc, bench, row.rest)?,
        "+" => {
            let word = row.rest.first().copied().unwrap_or("");
            let line = said.blocks.line(alloc, bench, word)?;
            said.row.bytes.extend_from_slice(line.as_bytes())?;
            said.row.bytes.push(b'\n')?;
        }
        _ => {
            let _is_set = ledgers::is_set(alloc, bench, row)?;
        }
    }
    Ok(None)
}

/// The text of a command and, behind `=`, its status, or none where it is one that wants threads. The row begins anew.
fn answered<O: Op>(
    alloc: Global,
    ops: &FullOps<O>,
    words: &str,
    row: &mut Row,
) -> Result<String, Fail> {
    let words: Vec<&str> = words.split_whitespace().collect(alloc)?;
    let mut input = Input::new(row.bytes.as_slice(), row.failure);
    let mut output = Output::new(alloc, row.room);
    let status = answer::<_, _, _, false>(alloc, words.as_slice(), &mut input, &mut output, ops);
    *row = Row::new(alloc);
    let Ok(text) = String::from_utf8(output.taken) else {
        return Err("answers are text".into());
    };
    match status {
        Some(status) => Ok(format!(in alloc; "{text}= {status}")?),
        None => Ok(format!(in alloc; "{text}= none")?),
    }
}

/// Whether a row adds to the input of a command, or says what its streams do.
fn is_input(alloc: Global, row: &mut Row, head: &str, rest: &str) -> Result<bool, Fail> {
    match head {
        "|" => {
            row.bytes.extend_from_slice(rest.as_bytes())?;
            row.bytes.push(b'\n')?;
        }
        "x" => row
            .bytes
            .extend_from_slice(hex::decode(alloc, rest)?.as_slice())?,
        "*" => add_repeated(row, rest)?,
        "fail" => row.failure = Some(ErrorKind::Other),
        "interrupt" => row.failure = Some(ErrorKind::Interrupted),
        "room" => row.room = rest.parse::<usize>()?,
        _ => return Ok(false),
    }
    Ok(true)
}

fn add_repeated(row: &mut Row, rest: &str) -> Result<(), Fail> {
    if let Some((number, text)) = rest.split_once(' ') {
        for _time in 0..number.parse::<usize>()? {
            row.bytes.extend_from_slice(text.as_bytes())?;
        }
    }
    Ok(())
}
