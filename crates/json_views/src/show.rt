//! The command `show`: a ledger, or a ledger and a block, as a JSON document.

ghost use Rattle.std.specs.Prelude.{◌≡◌, IfOk, Ok, OnOk};
ghost use Rattle.std.specs.Option.{option_map};
ghost use Rattle.json.specs.Tree.{json_tokens};
ghost use Rattle.teal_value.specs.Answer.{Gives};
ghost use Rattle.avm_input.specs.DigitLines.{digit_lines};
ghost use Rattle.avm_input.specs.Shown.{reply_shown};
ghost use Rattle.json_views.specs.Show.{block_behind, ledger_and_maybe_block, show_reply, shown_both, shown_reply};
ghost use Rattle.json_views.specs.Writing.{Adds};

use crate::block::{DigestedBlock, put_both};
use crate::ledger::put_ledger;
use crate::writing::{Writer, document_text};
use avm_input::{DONE, DigitLines, Refusal, Reply, next_base, refusal_reply};
use avm_ledger::Base;
use std::alloc::{AllocError, Global};
use teal_value::Failure;

/// What `show` answers to its input: the document of the ledger on its first line, and of the block on its second, if there
/// is one; or why it is refused. Nothing is replayed.
pub fn show_reply(alloc: Global, input: &[u8]) -> Result<Reply, AllocError>
    ensures { IfOk result (λ reply. reply_shown reply ≡ show_reply input.now) }
{
    match ledger_and_maybe_block(alloc, input) {
        Ok((base, block)) => document_reply(alloc, &base, &block),
        Err(Failure::Fault(refusal)) => refusal_reply(alloc, refusal),
        Err(Failure::Memory) => Err(AllocError),
    }
}

fn document_reply(
    alloc: Global,
    base: &Base,
    block: &Option<DigestedBlock>,
) -> Result<Reply, AllocError>
    ensures { IfOk result (λ reply. reply_shown reply ≡ shown_reply (Ok (base.now, block.now))) }
{
    let mut out = Writer::new(alloc);
    put_document(alloc, &mut out, base, block)?;
    let text = document_text(out)?;
    Ok(Reply {
        text: text.into_bytes(),
        status: DONE,
    })
}

fn put_document(
    alloc: Global,
    out: &mut Writer,
    base: &Base,
    block: &Option<DigestedBlock>,
) -> Result<(), AllocError>
    ensures { OnOk result (Adds out.old out.new (json_tokens (shown_both base.now block.now))) }
{
    match block {
        None => put_ledger(alloc, out, base),
        Some(block) => put_both(alloc, out, base, block),
    }
}

/// The ledger of the first line, and the block of the second.
fn ledger_and_maybe_block(
    alloc: Global,
    input: &[u8],
) -> Result<(Base, Option<DigestedBlock>), Failure<Refusal>>
    ensures { Gives (λ both. both) result (ledger_and_maybe_block (digit_lines input.now)) }
{
    let mut lines = DigitLines::new(input);
    let base = next_base(alloc, &mut lines)?;
    let second = lines.next_bytes(alloc)?;
    let block = block_behind(alloc, second, lines)?;
    Ok((base, block))
}

/// The block of a second line, behind which no line may be left.
fn block_behind(
    alloc: Global,
    second: Option<Vec<u8>>,
    rest: DigitLines,
) -> Result<Option<DigestedBlock>, Failure<Refusal>>
    ensures { Gives (λ block. block) result
        (block_behind (option_map (λ v. v.items) second) rest.entry) }
{
    let Some(bytes) = second else {
        return Ok(None);
    };
    let block = DigestedBlock::read(alloc, bytes.as_slice()).map_err(|failure| failure.map(
        |fault| Refusal::Block(fault),
    ))?;
    rest.end()?;
    Ok(Some(block))
}
