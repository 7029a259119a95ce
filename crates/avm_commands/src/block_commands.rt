//! The commands `replay` and `state`, whose input is two lines of digits: the ledger before a block, and the block.

ghost use Rattle.std.specs.Prelude.{◌≡◌, IfOk, Ok, string_bytes};
ghost use Rattle.teal_value.specs.Answer.{Gives};
ghost use Rattle.avm_replay.specs.declared.verdict.Verdict.TheVariants as verdict;
ghost use Rattle.avm_commands.specs.BlockCommands.{HasDigest, IsReplayReply, IsVerdictReply, ledger_reply, past_ledger_at, state_reply, verdict_reply, verdict_status, verdict_text};
ghost use Rattle.avm_input.specs.Shown.{reply_shown};

use crate::leftovers::leak_at_exit;
use avm_block::Block;
use avm_call::Outcome;
use avm_input::{
    DONE, REFUSED, Refusal, Reply, digit_line_bytes, ledger_and_block, outcome_text, refusal_reply,
};
use avm_ledger::{Base, Ledger};
use avm_ops::Op;
use avm_replay::{Verdict, replay_owned, state_at_owned};
use avm_run::FullOps;
use std::alloc::{AllocError, Global};
use teal_value::Failure;

/// What `replay` answers to its input: whether the block replays over the ledger, or the first thing that differs.
pub fn replay_reply<O: Op, const EXITS: bool>(
    alloc: Global,
    input: Vec<u8>,
    ops: &FullOps<O>,
) -> Result<Reply, AllocError>
    ensures { IfOk result (λ reply. IsReplayReply input.items (reply_shown reply)) }
{
    match ledger_and_block(alloc, input) {
        Ok((base, block)) => {
            let reply = verdict_on::<O, EXITS>(alloc, base, &block, ops);
            leak_at_exit::<Block, EXITS>(block);
            reply
        }
        Err(failure) => refusal_reply(alloc, failure.into_fault()?),
    }
}

/// What `state` answers to its input: the ledger after the calls with timestamps up to this one.
pub fn state_reply<O: Op, const EXITS: bool>(
    alloc: Global,
    timestamp: u64,
    input: Vec<u8>,
    ops: &FullOps<O>,
) -> Result<Reply, AllocError>
    ensures { IfOk result (λ reply. reply_shown reply ≡ state_reply timestamp input.items) }
{
    match past_ledger::<O, EXITS>(alloc, timestamp, input, ops) {
        Ok(ledger) => {
            let reply = ledger_reply(alloc, &ledger);
            leak_at_exit::<Ledger, EXITS>(ledger);
            reply
        }
        Err(failure) => refusal_reply(alloc, failure.into_fault()?),
    }
}

fn ledger_reply(alloc: Global, ledger: &Ledger) -> Result<Reply, AllocError>
    ensures { IfOk result (λ reply. reply_shown reply ≡ ledger_reply (Ok ledger.now)) }
{
    let bytes = ledger.canonical(alloc)?;
    let text = digit_line_bytes(alloc, bytes.as_slice())?;
    Ok(Reply { text, status: DONE })
}

/// The verdict on a block, as an answer.
fn verdict_on<O: Op, const EXITS: bool>(
    alloc: Global,
    base: Base,
    block: &Block,
    ops: &FullOps<O>,
) -> Result<Reply, AllocError>
    ensures { IfOk result (λ reply. IsVerdictReply (Ok (base, block.now)) (reply_shown reply)) }
{
    let verdict = replay_owned(alloc, base, block, ops)?;
    let reply = verdict_reply(alloc, &verdict, block.after());
    leak_at_exit::<Verdict, EXITS>(verdict);
    reply
}

/// A verdict, as an answer. Where the block agrees, `after` is the digest of the ledger after it.
fn verdict_reply(alloc: Global, verdict: &Verdict, after: &[u8; 32]) -> Result<Reply, AllocError>
    requires after { HasDigest verdict.now after.now }
    ensures { IfOk result (λ reply. reply_shown reply ≡ verdict_reply verdict.now) }
{
    let mut text = verdict_text(alloc, verdict, after)?;
    text.push('\n')?;
    Ok(Reply {
        text: text.into_bytes(),
        status: verdict_status(verdict),
    })
}

fn verdict_status(verdict: &Verdict) -> u8
    ensures { result ≡ verdict_status verdict.now }
{
    match verdict {
        Verdict::Agrees(_) => DONE,
        _ => REFUSED,
    }
}

/// The words of a verdict, as `replay` answers them, without the line feed. Where the block agrees, `after` is the digest of the
/// ledger after it.
pub fn verdict_text(
    alloc: Global,
    verdict: &Verdict,
    after: &[u8; 32],
) -> Result<String, AllocError>
    requires after { HasDigest verdict.now after.now }
    ensures { IfOk result (λ text. string_bytes text ≡ verdict_text verdict.now) }
{
    match verdict {
        Verdict::Agrees(_) => {
            let digits = hex::encode(alloc, after.as_slice())?;
            format!(in alloc; "agrees {digits}")
        }
        Verdict::WrongBase => String::from_str(alloc, "wrong base"),
        Verdict::WrongOutcome { entry, found } => wrong_outcome_text(alloc, *entry, *found),
        Verdict::WrongState => String::from_str(alloc, "wrong state"),
    }
}

fn wrong_outcome_text(alloc: Global, entry: usize, found: Outcome) -> Result<String, AllocError>
    ensures { IfOk result
        (λ text. string_bytes text ≡ verdict_text (verdict.WrongOutcome entry found)) }
{
    let found = outcome_text(alloc, found)?;
    format!(in alloc; "wrong outcome {entry} {found}")
}

/// The ledger after the calls with timestamps up to this one.
fn past_ledger<O: Op, const EXITS: bool>(
    alloc: Global,
    timestamp: u64,
    input: Vec<u8>,
    ops: &FullOps<O>,
) -> Result<Ledger, Failure<Refusal>>
    ensures { Gives (λ l. l) result (past_ledger_at timestamp input.items) }
{
    let (base, block) = ledger_and_block(alloc, input)?;
    let past = state_at_owned(alloc, base, &block, timestamp, ops);
    leak_at_exit::<Block, EXITS>(block);
    match past {
        Ok(past) => Ok(past),
        Err(Failure::Fault(fault)) => Err(Failure::Fault(Refusal::State(fault))),
        Err(Failure::Memory) => Err(Failure::Memory),
    }
}
