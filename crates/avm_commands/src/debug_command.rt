//! The command `debug`, whose input is that of `replay`: the ledger before a block, and the block.

ghost use Rattle.std.specs.Prelude.{ℕ, IfErr, IfOk, Ok, string_bytes};
ghost use Rattle.avm_stepper.specs.Opening.{IsOpened};
ghost use Rattle.avm_commands.specs.DebugCommands.{FindsText, IsDebugReply, IsFoundReply, OneFinding};
ghost use Rattle.avm_commands.specs.DebugRuns.{HasCome, IsDebugRefused, ShowsText};
ghost use Rattle.avm_input.specs.Shown.{reply_shown};

use crate::leftovers::leak_at_exit;
use crate::view_text::view_text;
use avm_block::Block;
use avm_input::{DONE, Refusal, Reply, ledger_and_block, refusal_reply};
use avm_ledger::Base;
use avm_ops::Op;
use avm_run::FullOps;
use avm_stepper::{StepFault, Stepper};
use std::alloc::{AllocError, Global};
use teal_value::Failure;

/// Where a debugger stands in a block: in the call of an entry, so many steps on.
#[derive(Clone, Copy, Debug, PartialEq, Eq)]
pub struct DebugPoint {
    /// The entry's number, counted from 1.
    pub number: usize,
    pub steps: u64,
}

/// What `debug` answers to its input: what stands where the program of an entry's call is after so many steps. Entries are
/// numbered from 1. It costs no more steps than the program has.
pub fn debug_reply<O: Op, const EXITS: bool>(
    alloc: Global,
    entry: u64,
    steps: u64,
    input: Vec<u8>,
    ops: &FullOps<O>,
) -> Result<Reply, AllocError>
    ensures { IfOk result (λ reply. IsDebugReply entry steps input.items (reply_shown reply)) }
{
    let point = DebugPoint {
        number: entry as usize,
        steps,
    };
    match ledger_and_block(alloc, input) {
        Ok((base, block)) => {
            let reply = found_reply(alloc, &base, &block, point, ops);
            leak_at_exit::<Base, EXITS>(base);
            leak_at_exit::<Block, EXITS>(block);
            reply
        }
        Err(failure) => refusal_reply(alloc, failure.into_fault()?),
    }
}

fn found_reply<O: Op>(
    alloc: Global,
    base: &Base,
    block: &Block,
    point: DebugPoint,
    ops: &FullOps<O>,
) -> Result<Reply, AllocError>
    ensures { IfOk result (λ reply.
        IsFoundReply point.number point.steps (Ok (base.now, block.now)) (reply_shown reply)) }
{
    match view_found(alloc, base, block, point, ops) {
        Ok(text) => Ok(Reply {
            text: text.into_bytes(),
            status: DONE,
        }),
        Err(Failure::Fault(refusal)) => refusal_reply(alloc, refusal),
        Err(Failure::Memory) => Err(AllocError),
    }
}

/// The view at a point of a block, in words; or why there is none.
pub fn view_found<O: Op>(
    alloc: Global,
    base: &Base,
    block: &Block,
    point: DebugPoint,
    ops: &FullOps<O>,
) -> Result<String, Failure<Refusal>>
    ensures found { IfOk result
        (λ text. FindsText (base.now, block.now) point.number point.steps (string_bytes text)) }
    ensures refused { IfErr result (IsDebugRefused base.now block.now point.number point.steps) }
{
    let DebugPoint { number, steps } = point;
    let stepper = stepper_at(alloc, base, block, number, steps, ops)?;
    match shown_text(alloc, &stepper) {
        Ok(text) => Ok(text),
        Err(AllocError) => Err(Failure::Memory),
    }
}

/// The call of an entry, so many steps on.
fn stepper_at<O: Op>(
    alloc: Global,
    base: &Base,
    block: &Block,
    entry: usize,
    steps: u64,
    ops: &FullOps<O>,
) -> Result<Stepper, Failure<Refusal>>
    ensures come { IfOk result (λ stepper. HasCome base.now block.now entry steps stepper) }
    ensures refused { IfErr result (IsDebugRefused base.now block.now entry steps) }
{
    let mut stepper = opened(alloc, base, block, entry, ops)?;
    for _step in 0..steps {
        match stepper.step(alloc, ops) {
            Ok(()) => {}
            Err(Failure::Fault(StepFault::Ended)) => return Err(Failure::Fault(Refusal::Ended)),
            Err(Failure::Fault(StepFault::Spent) | Failure::Memory) => return Err(Failure::Memory),
        }
    }
    Ok(stepper)
}

/// The call of an entry, before the first instruction of its program.
fn opened<O: Op>(
    alloc: Global,
    base: &Base,
    block: &Block,
    entry: usize,
    ops: &FullOps<O>,
) -> Result<Stepper, Failure<Refusal>>
    ensures opened { IfOk result (λ stepper. IsOpened base.now block.now entry stepper) }
    ensures refused { (steps : ℕ) → IfErr result (IsDebugRefused base.now block.now entry steps) }
{
    match Stepper::open_block_on(alloc, base, block, entry, ops) {
        Ok(stepper) => Ok(stepper),
        Err(Failure::Fault(fault)) => Err(Failure::Fault(Refusal::Opening(fault))),
        Err(Failure::Memory) => Err(Failure::Memory),
    }
}

fn shown_text(alloc: Global, stepper: &Stepper) -> Result<String, AllocError>
    ensures { IfOk result (λ text. ShowsText stepper.now (string_bytes text)) }
{
    match stepper.view(alloc) {
        Ok(view) => view_text(alloc, &view),
        Err(_) => Err(AllocError),
    }
}

/// In an entry one thing is found after so many steps: a view, or one refusal. So each is found exactly where its definition
/// says.
pub fn one_finding()
    ensures { OneFinding }
{}
