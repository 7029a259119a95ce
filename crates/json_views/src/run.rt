//! The command `run`: what the calls of a document do.

ghost use Rattle.std.specs.Prelude.{◌≡◌, IfErr, IfOk, Ok, string_bytes};
ghost use Rattle.avm_call.specs.Replay.{replayed};
ghost use Rattle.avm_input.specs.Replies.{Reply as ReplyRecord};
ghost use Rattle.avm_input.specs.Shown.{draft_shown, reply_shown};
ghost use Rattle.json_views.specs.CallTraces.{FindsRefusal, FindsText};
ghost use Rattle.json_views.specs.Runs.{FindsRun, IsRunOn, IsRunReply, run_too_long};

use crate::call_trace::Traced;
use crate::ledger::put_ledger;
use crate::refusal::TraceRefusal;
use crate::trace::{put_response, text_within};
use crate::trace_replies::found_reply;
use crate::writing::{Writer, begin_object, put_name};
use avm_call::Call;
use avm_input::{BlockDraft, DONE, Reply, block_draft, refusal_reply};
use avm_ledger::{Base, Ledger};
use avm_ops::Op;
use avm_run::{Executions, FullOps, RunContext, call_on};
use json_documents::lines_reply;
use std::alloc::{AllocError, Global};
use std::marker::Brand;
use std::sync::ledger;
use std::sync::ledger::Blank;
use teal_value::Failure;

/// What `run` answers to a document: what its calls do, one after another, and the ledger after the last; or why it is refused.
///
/// The calls are those of the lines that the document becomes, which are read as `propose` reads them.
pub fn run_reply<O: Op>(alloc: Global, input: &[u8], ops: &FullOps<O>) -> Result<Reply, AllocError>
    ensures { IfOk result (λ reply. IsRunReply input.now (reply_shown reply)) }
{
    let lines = lines_reply(alloc, input)?;
    if lines.status != DONE {
        return Ok(lines);
    }
    match block_draft(alloc, lines.text) {
        Ok(draft) => {
            let found = run_text(alloc, draft, ops);
            found_reply(alloc, found, "refused run TooLong\n")
        }
        Err(failure) => refusal_reply(alloc, failure.into_fault()?),
    }
}

/// The text of what the calls of a draft do, or that it is too long.
fn run_text<O: Op>(
    alloc: Global,
    draft: BlockDraft,
    ops: &FullOps<O>,
) -> Result<String, Failure<TraceRefusal>>
    ensures found { IfOk result
        (λ text. FindsText (FindsRun (draft_shown draft)) (string_bytes text)) }
    ensures refused { IfErr result (FindsRefusal (FindsRun (draft_shown draft))) }
{
    let BlockDraft {
        base,
        header,
        calls,
    } = draft;
    let context = RunContext {
        alloc,
        ops,
        header: &header,
    };
    let ledger = base.into_ledger();
    let after = ledger_after_calls::<Brand, O>(&context, &ledger, &calls, Blank::new(2))?;
    let after = Base::of(alloc, after)?;
    let mut out = Writer::new(alloc);
    begin_object(&mut out)?;
    put_name(&mut out, "after")?;
    put_ledger(alloc, &mut out, &after)?;
    put_response::<Brand, Call, O>(&context, &mut out, ledger, &calls, Blank::new(2))?;
    text_within(out)
}

/// The ledger after calls, one after another.
fn ledger_after_calls<L: ledger::Ledger, O: Op>(
    context: &RunContext<'_, O>,
    ledger: &Ledger,
    calls: &[Call],
    blank: Blank,
) -> Result<Ledger, AllocError>
    requires blank { (blank.name ≡ L.name) × (blank.parts ≡ L.parts) × (blank.parts ≡ 2) }
    ensures { IfOk result
        (λ after. after ≡ replayed ledger.now context.now.header.now calls.now) }
{
    let mut executions = Executions::<L>::new(blank);
    let mut spare = None;
    let mut after = ledger.clone()?;
    for call in calls {
        call_on(context, &mut after, call, &mut spare, &mut executions)?;
    }
    Ok(after)
}
