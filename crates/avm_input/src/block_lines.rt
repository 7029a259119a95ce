//! A ledger and a block on lines of digits.

ghost use Rattle.std.specs.Prelude.{◌≡◌, IfOk, List};
ghost use Rattle.teal_value.specs.Answer.{Gives};
ghost use Rattle.avm_ledger.specs.LedgerRules.{KeepsRules};
ghost use Rattle.avm_block.specs.AcceptedCalls.{is_accepted};
ghost use Rattle.avm_block.specs.BlockReader.{block_at};
ghost use Rattle.avm_input.specs.BlockLines.{first_ledger, last_block, ledger_and_block, needed_bytes, on_block};
ghost use Rattle.avm_input.specs.DigitLines.{DigitLine, digit_lines, with_no_line};

use crate::digit_lines::DigitLines;
use crate::refusals::Refusal;
use avm_block::{Block, decode};
use avm_ledger::Base;
use std::alloc::Global;
use teal_value::Failure;

/// The ledger and the block of the only two lines. The input is given back once its digits are bytes, so that what the bytes
/// of the block become has the input's room.
pub fn ledger_and_block(alloc: Global, input: Vec<u8>) -> Result<(Base, Block), Failure<Refusal>>
    ensures { Gives (λ both. both) result (ledger_and_block (digit_lines input.items)) }
{
    let mut lines = DigitLines::new(input.as_slice());
    let base = next_base(alloc, &mut lines)?;
    let bytes = needed_bytes(alloc, &mut lines)?;
    let ended = lines.end();
    drop(input);
    match last_block(alloc, bytes, ended) {
        Ok(block) => Ok((base, block)),
        Err(failure) => Err(failure),
    }
}

/// The block that the bytes of a line are, unless what is behind that line is refused.
#[tactic(auto, using(crate::proofs::LinesBehind::refused_alike))]
fn last_block(
    alloc: Global,
    bytes: Vec<u8>,
    ended: Result<(), Failure<Refusal>>,
) -> Result<Block, Failure<Refusal>>
    ensures { (behind : List DigitLine) → Gives (λ x. x) ended (with_no_line behind tt)
        → Gives (λ block. block) result (last_block bytes.items behind) }
{
    let block = block_of(alloc, bytes.as_slice())?;
    ended?;
    Ok(block)
}

/// The ledger of the next line.
pub fn next_base(alloc: Global, lines: &mut DigitLines) -> Result<Base, Failure<Refusal>>
    ensures exact { Gives (λ base. (base, lines.new)) result (first_ledger lines.old) }
    ensures rules { IfOk result KeepsRules }
{
    let bytes = needed_bytes(alloc, lines)?;
    Base::read(alloc, bytes.as_slice()).map_err(|failure| failure.map(Refusal::Ledger))
}

fn block_of(alloc: Global, bytes: &[u8]) -> Result<Block, Failure<Refusal>>
    ensures { Gives (λ block. block) result (on_block (block_at is_accepted bytes.now)) }
{
    decode(alloc, bytes).map_err(|failure| failure.map(Refusal::Block))
}

/// The bytes of the next line, which there has to be.
pub fn needed_bytes(alloc: Global, lines: &mut DigitLines) -> Result<Vec<u8>, Failure<Refusal>>
    ensures { Gives (λ bytes. (bytes.items, lines.new)) result (needed_bytes lines.old) }
{
    match lines.next_bytes(alloc)? {
        Some(bytes) => Ok(bytes),
        None => Err(Failure::Fault(Refusal::Lines)),
    }
}
