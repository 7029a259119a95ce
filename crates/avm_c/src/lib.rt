//! The machine for callers in C: a static library whose exports take bytes and answer bytes, a status and numbers. Nothing is
//! kept between calls, and no thread is started. `include/avm.h` says for C what the contracts here say.
//! `avm_bytes` has the definitions that they cite, and makes the answers.
#![tactic(auto)]

mod questions;

ghost use Rattle.std.specs.Prelude.{◌≡◌, ◌≢◌};
ghost use Rattle.teal_check.specs.WellFormed.{checked};
ghost use Rattle.avm_bytes.specs.declared.statuses.Status.TheVariants as status;
ghost use Rattle.avm_bytes.specs.Answers.{IsAnswered};
ghost use Rattle.avm_bytes.specs.Applied.{IsToldApplied};
ghost use Rattle.avm_bytes.specs.Attempts.{IsAttempted, IsTold, asked_of};
ghost use Rattle.avm_bytes.specs.BlockAnswers.{ledger_and_block, state_answer_at};
ghost use Rattle.avm_bytes.specs.Calls.{called, on_ledger};
ghost use Rattle.avm_bytes.specs.Diagnoses.{IsDiagnosed, IsToldWrong, kind_of, wrong_with};
ghost use Rattle.avm_bytes.specs.Findings.{IsFound};
ghost use Rattle.avm_bytes.specs.Programs.{assembled_answer, check_status, listed_answer};
ghost use Rattle.avm_bytes.specs.Proposals.{IsToldProposed, calls_on_ledger};
ghost use Rattle.avm_bytes.specs.Statuses.{status_number};
ghost use Rattle.avm_bytes.specs.TraceAnswers.{IsTraceAnswer};
ghost use Rattle.avm_bytes.specs.ViewAnswers.{IsViewAnswer};
ghost use Rattle.avm_bytes.specs.WordAnswers.{IsCommandAnswer, IsJsonAnswer, command_of, json_command_of};

use crate::questions::ask;
use avm_bytes::answers::{place, place_nothing};
use avm_bytes::applied::{Apply, write_difference};
use avm_bytes::attempts::CallOver;
use avm_bytes::blocks::{Replay, State};
use avm_bytes::calls::CallOn;
use avm_bytes::diagnoses::{Kind, kind_of, wrong_with};
use avm_bytes::ends::End;
use avm_bytes::findings::{Difference, write_finding};
use avm_bytes::programs::{assembled_answer, check_status, listed_answer};
use avm_bytes::proposals::Propose;
use avm_bytes::statuses::Status;
use avm_bytes::traces::TraceOf;
use avm_bytes::troubles::{Trouble, tell_trouble, write_trouble};
use avm_bytes::views::ViewAfter;
use avm_bytes::words::{AvmWords, JsonWords};
use std::alloc::Global;

/// The version of the library: 1,000,000 for each major version, 1,000 for each minor one, and 1 for each patch.
pub const VERSION: u32 = 7_000;

/// The version of the library.
#[unsafe(no_mangle)]
pub extern "C" fn avm_c_version() -> u32
    ensures { result ≡ VERSION }
{
    VERSION
}

/// Whether the bytes are a program.
#[unsafe(no_mangle)]
pub extern "C" fn avm_c_check(alloc: Global, program: &[u8]) -> u32
    ensures { result ≢ status_number status.Memory
        → result ≡ status_number (check_status (checked program.now)) }
{
    match check_status(alloc, program) {
        Ok(status) => status.number(),
        Err(_) => Status::Memory.number(),
    }
}

/// The program that source text assembles to.
#[unsafe(no_mangle)]
pub extern "C" fn avm_c_assemble(
    alloc: Global,
    text: &[u8],
    room: &mut [u8],
    written: &mut usize,
) -> u32
    ensures { IsAnswered (λ answer. answer ≡ assembled_answer text.now)
        room.old room.new written.new result }
{
    match assembled_answer(alloc, text) {
        Ok(answer) => place(&answer, room, written),
        Err(_) => place_nothing(written),
    }
}

/// A program's listing.
#[unsafe(no_mangle)]
pub extern "C" fn avm_c_list(
    alloc: Global,
    program: &[u8],
    room: &mut [u8],
    written: &mut usize,
) -> u32
    ensures { IsAnswered (λ answer. answer ≡ listed_answer program.now)
        room.old room.new written.new result }
{
    match listed_answer(alloc, program) {
        Ok(answer) => place(&answer, room, written),
        Err(_) => place_nothing(written),
    }
}

/// The verdict on a block over the ledger before it: with the SHA-256 of the ledger after it where it agrees, and with the
/// first entry that differs where one does.
#[unsafe(no_mangle)]
pub extern "C" fn avm_c_replay(
    alloc: Global,
    ledger: &[u8],
    block: &[u8],
    digest: &mut [u8; 32],
    difference: &mut Difference,
) -> u32
    ensures { IsFound (ledger_and_block ledger.now block.now)
        digest.old digest.new difference.old difference.new result }
{
    match ask(alloc, &Replay { ledger, block }) {
        Ok(finding) => write_finding(finding, digest, difference),
        Err(_) => Status::Memory.number(),
    }
}

/// The verdict on a block over the ledger before it, with the bytes of the ledger after it where it agrees, and with the first entry
/// that differs where one does.
#[unsafe(no_mangle)]
pub extern "C" fn avm_c_apply(
    alloc: Global,
    ledger: &[u8],
    block: &[u8],
    room: &mut [u8],
    written: &mut usize,
    difference: &mut Difference,
) -> u32
    ensures { IsToldApplied (ledger_and_block ledger.now block.now)
        room.old room.new difference.old difference.new written.new result }
{
    match ask(alloc, &Apply { ledger, block }) {
        Ok(applied) => {
            write_difference(applied.difference, difference);
            place(&applied.answer, room, written)
        }
        Err(_) => place_nothing(written),
    }
}

/// The bytes of the ledger after the calls of a block with timestamps up to this one.
#[unsafe(no_mangle)]
pub extern "C" fn avm_c_state(
    alloc: Global,
    ledger: &[u8],
    block: &[u8],
    timestamp: u64,
    room: &mut [u8],
    written: &mut usize,
) -> u32
    ensures { IsAnswered
        (λ answer. answer ≡ state_answer_at timestamp (ledger_and_block ledger.now block.now))
        room.old room.new written.new result }
{
    let question = State {
        ledger,
        block,
        timestamp,
    };
    match ask(alloc, &question) {
        Ok(answer) => place(&answer, room, written),
        Err(_) => place_nothing(written),
    }
}

/// The view of the call of a block's entry after so many steps, as `debug` prints it. Entries are counted from 1.
#[unsafe(no_mangle)]
pub extern "C" fn avm_c_view(
    alloc: Global,
    ledger: &[u8],
    block: &[u8],
    entry: u64,
    steps: u64,
    room: &mut [u8],
    written: &mut usize,
) -> u32
    ensures { IsAnswered (IsViewAnswer entry steps (ledger_and_block ledger.now block.now))
        room.old room.new written.new result }
{
    let question = ViewAfter {
        ledger,
        block,
        entry,
        steps,
    };
    match ask(alloc, &question) {
        Ok(answer) => place(&answer, room, written),
        Err(_) => place_nothing(written),
    }
}

/// What the program `avm` writes for these words, parted by zero bytes, and this input, with its exit status.
#[unsafe(no_mangle)]
pub extern "C" fn avm_c_answer(
    alloc: Global,
    words: &[u8],
    input: &[u8],
    room: &mut [u8],
    written: &mut usize,
) -> u32
    ensures { IsAnswered (IsCommandAnswer (command_of words.now) input.now)
        room.old room.new written.new result }
{
    match ask(alloc, &AvmWords { words, input }) {
        Ok(answer) => place(&answer, room, written),
        Err(_) => place_nothing(written),
    }
}

/// What the program `avm_json` writes for these words, parted by zero bytes, and this input, with its exit status.
#[unsafe(no_mangle)]
pub extern "C" fn avm_c_json(
    alloc: Global,
    words: &[u8],
    input: &[u8],
    room: &mut [u8],
    written: &mut usize,
) -> u32
    ensures { IsAnswered (IsJsonAnswer (json_command_of words.now) input.now)
        room.old room.new written.new result }
{
    match ask(alloc, &JsonWords { words, input }) {
        Ok(answer) => place(&answer, room, written),
        Err(_) => place_nothing(written),
    }
}

/// A call over items that the caller knows: how it ends and what it writes, or the first item that it looks at and that is not
/// known.
#[unsafe(no_mangle)]
pub extern "C" fn avm_c_attempt(
    alloc: Global,
    header: &[u8],
    call: &[u8],
    known: &[u8],
    room: &mut [u8],
    written: &mut usize,
    end: &mut End,
) -> u32
    ensures { IsTold (IsAttempted (asked_of header.now call.now known.now))
        room.old room.new end.old end.new written.new result }
{
    match ask(
        alloc,
        &CallOver {
            header,
            call,
            known,
        },
    ) {
        Ok(attempted) => {
            *end = attempted.end;
            place(&attempted.answer, room, written)
        }
        Err(_) => place_nothing(written),
    }
}

/// A call over a ledger: how it ends, and the bytes of the ledger after it.
#[unsafe(no_mangle)]
pub extern "C" fn avm_c_call(
    alloc: Global,
    ledger: &[u8],
    header: &[u8],
    call: &[u8],
    room: &mut [u8],
    written: &mut usize,
    end: &mut End,
) -> u32
    ensures { IsTold (λ a. a ≡ called (on_ledger ledger.now header.now call.now))
        room.old room.new end.old end.new written.new result }
{
    match ask(
        alloc,
        &CallOn {
            ledger,
            header,
            call,
        },
    ) {
        Ok(attempted) => {
            *end = attempted.end;
            place(&attempted.answer, room, written)
        }
        Err(_) => place_nothing(written),
    }
}

/// The block of calls that are made on a ledger one after another, in their order.
#[unsafe(no_mangle)]
pub extern "C" fn avm_c_propose(
    alloc: Global,
    ledger: &[u8],
    header: &[u8],
    calls: &[u8],
    room: &mut [u8],
    written: &mut usize,
    trouble: &mut Trouble,
) -> u32
    ensures { IsToldProposed (calls_on_ledger ledger.now header.now calls.now)
        room.old room.new trouble.old trouble.new written.new result }
{
    match ask(
        alloc,
        &Propose {
            ledger,
            header,
            calls,
        },
    ) {
        Ok(proposed) => {
            tell_trouble(proposed.trouble, trouble);
            place(&proposed.answer, room, written)
        }
        Err(_) => place_nothing(written),
    }
}

/// What the call of a block's entry does, counted from 1, or where the entry is 0 what all calls do: the text of a dry-run response.
#[unsafe(no_mangle)]
pub extern "C" fn avm_c_trace(
    alloc: Global,
    ledger: &[u8],
    block: &[u8],
    entry: u64,
    room: &mut [u8],
    written: &mut usize,
) -> u32
    ensures { IsAnswered (IsTraceAnswer entry (ledger_and_block ledger.now block.now))
        room.old room.new written.new result }
{
    let question = TraceOf {
        ledger,
        block,
        entry,
    };
    match ask(alloc, &question) {
        Ok(answer) => place(&answer, room, written),
        Err(_) => place_nothing(written),
    }
}

/// What is wrong with bytes that a function refused with this status.
#[unsafe(no_mangle)]
pub extern "C" fn avm_c_diagnose(
    alloc: Global,
    status: u32,
    bytes: &[u8],
    trouble: &mut Trouble,
) -> u32
    ensures { IsDiagnosed (kind_of status) bytes.now trouble.old trouble.new result }
{
    match kind_of(status) {
        Some(kind) => diagnosed(alloc, kind, bytes, trouble),
        None => Status::Usage.number(),
    }
}

fn diagnosed(alloc: Global, kind: Kind, bytes: &[u8], trouble: &mut Trouble) -> u32
    ensures { IsToldWrong (wrong_with kind bytes.now) trouble.old trouble.new result }
{
    match wrong_with(alloc, kind, bytes) {
        Ok(found) => write_trouble(found, trouble),
        Err(_) => Status::Memory.number(),
    }
}
