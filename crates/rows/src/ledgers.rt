//! Calls on a ledger in memory, and the bytes of ledgers, calls and blocks, by these rows:
//! - `program NAME` assembles the input, begins it anew, and puts the program under a name; it tells the bytes. `code NAME DIGITS`
//!   puts one that no source is assembled to;
//! - `header PROFILE NUMBERS` sets the round, the latest timestamp, the least fee, the least balance and the longest life of what
//!   follows; before it all numbers are 0, and a call is made in the profile that its programs need;
//! - `ledger PIECES` puts a ledger in place, `bytes` and `digest` tell its bytes and their digest;
//! - `call WORDS` makes a call on it, and `call3 WORDS` makes it in profile 3;
//! - `calldata PIECES` and `block PIECES` read a call and a block, and write them again;
//! - `beginnings KIND PIECES` reads each proper beginning of a `ledger`, a `calldata` or a `block`, and tells how many are
//!   truncated; `changed PIECES` reads a block with each byte in turn changed in its lowest bit, and tells how many are refused.
//!
//! `sample_calls` has the words of calls and the pieces of bytes.

ghost use Rattle.std.specs.Prelude.{◌≡◌};

use avm_block::{BlockFault, decode, encode};
use avm_call::Call;
use avm_call_codec::{CallCodec, CallDataFault};
use avm_items::CallData;
use avm_ledger::{Header, Ledger, LedgerFault, Profile};
use avm_ops::Op;
use avm_run::{Executions, FullOps, RunContext, call_on};
use sample_calls::calls::{HEADER, call_or_fault};
use sample_calls::programs::Programs;
use sample_calls::words::{joined, number, word};
use std::alloc::Global;
use std::fmt::Debug;
use std::marker::Brand;
use std::sync::ledger;
use std::sync::ledger::Blank;
use std::test::Fail;
use teal_value::Failure;

/// A row: its first word, and those behind it.
#[derive(Clone, Copy)]
pub struct Words<'a> {
    pub head: &'a str,
    pub rest: &'a [&'a str],
}

/// The ledger, the programs and the header of the rows so far.
#[derive(Drop)]
pub struct Bench {
    pub programs: Programs,
    pub ledger: Ledger,
    /// The header that a row has set.
    pub header: Option<Header>,
}

impl Bench {
    pub fn new(alloc: Global) -> Bench {
        Bench {
            programs: Programs::new(alloc),
            ledger: Ledger::new(alloc),
            header: None,
        }
    }

    /// The header of this profile, or the one that a row has set.
    pub fn header(&self, profile: Profile) -> Header {
        self.header.unwrap_or(Header { profile, ..HEADER })
    }
}

/// The answer to a row, or nothing where its head is none of these.
pub fn reply<O: Op>(
    alloc: Global,
    ops: &FullOps<O>,
    bench: &mut Bench,
    input: &mut Vec<u8>,
    row: Words,
) -> Result<Option<String>, Fail> {
    let words = row.rest;
    match row.head {
        "call" => called(alloc, ops, bench, None, words).map(Some),
        "call3" => called(alloc, ops, bench, Some(Profile::Three), words).map(Some),
        "ledger" => ledger_read(alloc, bench, words).map(Some),
        "bytes" => digits_of(alloc, &bench.ledger).map(Some),
        "digest" => digest_of(alloc, &bench.ledger).map(Some),
        "calldata" => call_data_again(alloc, bench, words).map(Some),
        "block" => block_again(alloc, bench, words).map(Some),
        "beginnings" => beginnings(alloc, bench, words).map(Some),
        "changed" => changed(alloc, bench, words).map(Some),
        "program" => assembled(alloc, bench, input, words).map(Some),
        _ => Ok(None),
    }
}

/// Assembles the input, which begins anew.
fn assembled(
    alloc: Global,
    bench: &mut Bench,
    input: &mut Vec<u8>,
    words: &[&str],
) -> Result<String, Fail> {
    let name = word(words, 0)?;
    let told = bench.programs.assemble(alloc, name, input.as_slice())?;
    input.clear();
    Ok(told)
}

/// Whether a row sets something, and has no answer.
pub fn is_set(alloc: Global, bench: &mut Bench, row: Words) -> Result<bool, Fail> {
    let words = row.rest;
    match row.head {
        "code" => {
            if let Some((name, words)) = words.split_first() {
                let bytes = joined(alloc, &bench.programs, words)?;
                bench.programs.put(alloc, name, bytes.as_slice())?;
            }
            Ok(true)
        }
        "header" => {
            bench.header = Some(header_of(words)?);
            Ok(true)
        }
        _ => Ok(false),
    }
}

fn digest_of(alloc: Global, ledger: &Ledger) -> Result<String, Fail> {
    Ok(hex::encode(alloc, ledger.digest(alloc)?.as_slice())?)
}

/// The bytes of a ledger.
pub fn digits_of(alloc: Global, ledger: &Ledger) -> Result<String, Fail> {
    Ok(hex::encode(alloc, ledger.canonical(alloc)?.as_slice())?)
}

/// What was refused, where it was not memory.
pub fn refusal<F: Debug + Drop>(alloc: Global, failure: Failure<F>) -> Result<String, Fail> {
    match failure {
        Failure::Fault(fault) => Ok(format!(in alloc; "{fault:?}")?),
        Failure::Memory => Err("memory is refused".into()),
    }
}

/// The profile of its number.
pub fn profile_of(word: &str) -> Result<Profile, Fail> {
    match word {
        "2" => Ok(Profile::Two),
        "3" => Ok(Profile::Three),
        _ => Err("profiles are 2 and 3".into()),
    }
}

fn header_of(words: &[&str]) -> Result<Header, Fail> {
    Ok(Header {
        profile: profile_of(word(words, 0)?)?,
        round: number(words, 1)?,
        latest_timestamp: number(words, 2)?,
        min_fee: number(words, 3)?,
        min_balance: number(words, 4)?,
        max_life: number(words, 5)?,
    })
}

/// Puts the ledger of these bytes in place of the one before.
fn ledger_read(alloc: Global, bench: &mut Bench, words: &[&str]) -> Result<String, Fail> {
    match Ledger::read(alloc, joined(alloc, &bench.programs, words)?.as_slice()) {
        Ok(read) => {
            bench.ledger = read;
            Ok(String::from_str(alloc, "read")?)
        }
        Err(failure) => refusal(alloc, failure),
    }
}

/// A call's bytes read and written.
fn call_data_again(alloc: Global, bench: &Bench, words: &[&str]) -> Result<String, Fail> {
    let bytes = joined(alloc, &bench.programs, words)?;
    match CallData::read(alloc, bytes.as_slice()) {
        Ok(call) => call_digits(alloc, &call),
        Err(failure) => refusal(alloc, failure),
    }
}

/// The bytes of a call.
fn call_digits(alloc: Global, call: &CallData) -> Result<String, Fail> {
    let mut bytes = Vec::new(alloc);
    call.encode_into(&mut bytes)?;
    Ok(hex::encode(alloc, bytes.as_slice())?)
}

/// A block's bytes read and written.
fn block_again(alloc: Global, bench: &Bench, words: &[&str]) -> Result<String, Fail> {
    match decode(alloc, joined(alloc, &bench.programs, words)?.as_slice()) {
        Ok(block) => Ok(hex::encode(alloc, encode(alloc, &block)?.as_slice())?),
        Err(failure) => refusal(alloc, failure),
    }
}

/// How a call on the ledger ends, in this profile or else in the one that its programs need.
fn called<O: Op>(
    alloc: Global,
    ops: &FullOps<O>,
    bench: &mut Bench,
    profile: Option<Profile>,
    words: &[&str],
) -> Result<String, Fail> {
    match call_or_fault(alloc, &bench.programs, words)? {
        Ok(call) => {
            let header = bench.header(profile.unwrap_or(call.needs()));
            let ledger = &mut bench.ledger;
            outcome_text::<Brand, O>(alloc, ops, ledger, &header, &call, Blank::new(2))
        }
        Err(fault) => Ok(format!(in alloc; "{fault:?}")?),
    }
}

/// How a call ends, which is made on a ledger under a header.
fn outcome_text<L: ledger::Ledger, O: Op>(
    alloc: Global,
    ops: &FullOps<O>,
    ledger: &mut Ledger,
    header: &Header,
    call: &Call,
    blank: Blank,
) -> Result<String, Fail>
    requires blank { (blank.name ≡ L.name) × (blank.parts ≡ L.parts) × (blank.parts ≡ 2) }
{
    let context = RunContext { alloc, ops, header };
    let mut executions = Executions::<L>::new(blank);
    let outcome = call_on(&context, ledger, call, &mut None, &mut executions)?;
    Ok(format!(in alloc; "{outcome:?} {:?}", header.profile)?)
}

/// How many proper beginnings of bytes of a kind are truncated.
fn beginnings(alloc: Global, bench: &Bench, words: &[&str]) -> Result<String, Fail> {
    let Some((kind, words)) = words.split_first() else {
        return Err("a kind is missing".into());
    };
    let bytes = joined(alloc, &bench.programs, words)?;
    let len = bytes.len();
    let mut truncated = 0usize;
    for count in 0..len {
        if is_truncated(alloc, kind, &bytes[..count]) {
            truncated = truncated.saturating_add(1);
        }
    }
    Ok(format!(in alloc; "{truncated} of {len} truncated")?)
}

fn is_truncated(alloc: Global, kind: &str, bytes: &[u8]) -> bool {
    match kind {
        "ledger" => matches!(
            Ledger::read(alloc, bytes),
            Err(Failure::Fault(LedgerFault::Truncated))
        ),
        "calldata" => matches!(
            CallData::read(alloc, bytes),
            Err(Failure::Fault(CallDataFault::Truncated))
        ),
        _ => matches!(
            decode(alloc, bytes),
            Err(Failure::Fault(BlockFault::Truncated))
        ),
    }
}

/// How many blocks that differ from these bytes in the lowest bit of one byte are refused.
fn changed(alloc: Global, bench: &Bench, words: &[&str]) -> Result<String, Fail> {
    let mut bytes = joined(alloc, &bench.programs, words)?;
    let len = bytes.len();
    let mut refused = 0usize;
    for place in 0..len {
        flip(&mut bytes, place);
        if matches!(decode(alloc, bytes.as_slice()), Err(Failure::Fault(_))) {
            refused = refused.saturating_add(1);
        }
        flip(&mut bytes, place);
    }
    Ok(format!(in alloc; "{refused} of {len} refused")?)
}

fn flip(bytes: &mut Vec<u8>, place: usize) {
    if let Some(byte) = bytes.as_mut_slice().get_mut(place) {
        *byte ^= 1;
    }
}
