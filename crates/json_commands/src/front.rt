//! What stands on a page beside traces.

ghost use Rattle.std.specs.Prelude.{◌≡◌, IfOk, OnOk};
ghost use Rattle.json.specs.Tree.{json_tokens};
ghost use Rattle.avm_block.specs.Blocks.{calls_in};
ghost use Rattle.avm_call.specs.Replay.{outcomes, replayed};
ghost use Rattle.json_views.specs.Documents.{array_of};
ghost use Rattle.json_views.specs.Writing.{Adds};
ghost use Rattle.json_commands.specs.Pages.{shown_outcome};
ghost use Rattle.json_commands.specs.Writing.{AddsFront, AddsVerdict};

use avm_block::Entry;
use avm_call::Outcome;
use avm_commands::verdict_text;
use avm_input::outcome_text;
use avm_ledger::{Base, Ledger};
use avm_ops::Op;
use avm_replay::replay_owned;
use avm_run::{Executions, FullOps, RunContext, call_on};
use json_views::block::{DigestedBlock, put_both};
use json_views::ledger::put_ledger;
use json_views::writing::{
    Writer, begin_array, begin_object, end_array, put_name, put_text, put_text_member,
    put_uint_member,
};
use std::alloc::{AllocError, Global};
use std::marker::Brand;
use std::sync::ledger;
use std::sync::ledger::Blank;

/// Opens the document of a page, and writes all members but the last, and the name of that one. The number is that of the entry
/// that was asked for, or 0.
pub(crate) fn put_front<O: Op>(
    alloc: Global,
    out: &mut Writer,
    number: u64,
    base: &Base,
    block: &DigestedBlock,
    ops: &FullOps<O>,
) -> Result<(), AllocError>
    ensures { OnOk result (AddsFront base.now block.now number out.old out.new) }
{
    let entries = block.block().entries();
    let context = RunContext {
        alloc,
        ops,
        header: block.block().header(),
    };
    let made = calls_made::<Brand, O>(&context, base.ledger(), entries, Blank::new(2))?;
    let after = Base::of(alloc, made.after)?;
    begin_object(out)?;
    put_name(out, "after")?;
    put_ledger(alloc, out, &after)?;
    put_uint_member(out, "entry", number)?;
    put_name(out, "outcomes")?;
    put_outcomes(alloc, out, &made.outcomes)?;
    put_verdict(alloc, out, base, block, ops)?;
    put_name(out, "shown")?;
    put_both(alloc, out, base, block)?;
    put_name(out, "trace")
}

/// How calls end, and the ledger after the last.
#[derive(Drop)]
struct Made {
    outcomes: Vec<Outcome>,
    after: Ledger,
}

/// Makes the calls of entries over a ledger, one after another.
fn calls_made<L: ledger::Ledger, O: Op>(
    context: &RunContext<'_, O>,
    ledger: &Ledger,
    entries: &[Entry],
    blank: Blank,
) -> Result<Made, AllocError>
    requires blank { (blank.name ≡ L.name) × (blank.parts ≡ L.parts) × (blank.parts ≡ 2) }
    ensures outcomes { IfOk result (λ made. made.outcomes.items
        ≡ outcomes ledger.now context.now.header.now (calls_in entries.now)) }
    ensures after { IfOk result (λ made. made.after
        ≡ replayed ledger.now context.now.header.now (calls_in entries.now)) }
{
    let mut executions = Executions::<L>::new(blank);
    let mut spare = None;
    let mut after = ledger.clone()?;
    let mut outcomes = Vec::new(context.alloc);
    for entry in entries {
        let outcome = call_on(
            context,
            &mut after,
            &entry.call,
            &mut spare,
            &mut executions,
        )?;
        outcomes.push(outcome)?;
    }
    Ok(Made { outcomes, after })
}

fn put_outcomes(alloc: Global, out: &mut Writer, outcomes: &[Outcome]) -> Result<(), AllocError>
    ensures { OnOk result
        (Adds out.old out.new (json_tokens (array_of shown_outcome outcomes.now))) }
{
    begin_array(out)?;
    for outcome in outcomes {
        put_outcome(alloc, out, *outcome)?;
    }
    end_array(out)
}

fn put_outcome(alloc: Global, out: &mut Writer, outcome: Outcome) -> Result<(), AllocError>
    ensures { OnOk result (Adds out.old out.new (json_tokens (shown_outcome outcome))) }
{
    let words = outcome_text(alloc, outcome)?;
    put_text(out, words.as_str())
}

/// The member that is what `replay` answers.
fn put_verdict<O: Op>(
    alloc: Global,
    out: &mut Writer,
    base: &Base,
    block: &DigestedBlock,
    ops: &FullOps<O>,
) -> Result<(), AllocError>
    ensures { OnOk result (AddsVerdict base.now block.now out.old out.new) }
{
    let copy = base.clone()?;
    let verdict = replay_owned(alloc, copy, block.block(), ops)?;
    let words = verdict_text(alloc, &verdict, block.block().after())?;
    put_text_member(out, "replay", words.as_str())
}
