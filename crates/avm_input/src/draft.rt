//! What a block is to be made of: a line of digits for the ledger before it, one for its header, and one for each call.

ghost use Rattle.std.specs.Prelude.{◌≡◌, IfOk};
ghost use Rattle.teal_value.specs.Answer.{Gives};
ghost use Rattle.avm_ledger.specs.declared.header.Profile.TheVariants.{Three};
ghost use Rattle.avm_input.specs.DigitLines.{digit_lines};
ghost use Rattle.avm_input.specs.ProposeInputs.{header_of, propose_input};
ghost use Rattle.avm_input.specs.Shown.{draft_shown};

use crate::block_lines::{needed_bytes, next_base};
use crate::digit_lines::DigitLines;
use crate::numbered_calls::calls_on;
use crate::refusals::Refusal;
use avm_block::header_codec::header_of as header_in;
use avm_call::Call;
use avm_ledger::{Base, Fields, Header, Profile};
use std::alloc::Global;
use teal_value::Failure;

/// What calls are to be made of, on which ledger and by which header.
#[derive(Drop)]
pub struct BlockDraft {
    pub base: Base,
    pub header: Header,
    pub calls: Vec<Call>,
}

/// What the lines are, or the first refusal in their order, all read by the thread that asks.
pub fn block_draft(alloc: Global, input: Vec<u8>) -> Result<BlockDraft, Failure<Refusal>>
    ensures exact { Gives draft_shown result (propose_input (digit_lines input.items)) }
    ensures profile { IfOk result (λ draft. draft.header.profile ≡ Three) }
{
    let mut lines = DigitLines::new(input.as_slice());
    let base = next_base(alloc, &mut lines)?;
    let bytes = needed_bytes(alloc, &mut lines)?;
    let header = header_of(bytes.as_slice())?;
    let lines = lines.into_lines(alloc)?;
    let calls = calls_on(alloc, 1, lines.as_slice(), lines.len())?;
    Ok(BlockDraft {
        base,
        header,
        calls,
    })
}

/// The header that the bytes are, of a block that may have calls of all versions.
pub fn header_of(bytes: &[u8]) -> Result<Header, Failure<Refusal>>
    ensures exact { Gives (λ header. header) result (header_of bytes.now) }
    ensures profile { IfOk result (λ header. header.profile ≡ Three) }
{
    let (header, rest) = header_in(Profile::Three, Fields::new(bytes)).map_err(
        |failure| failure.map(|_fault| Refusal::Header),
    )?;
    if rest.is_empty() {
        Ok(header)
    } else {
        Err(Failure::Fault(Refusal::Header))
    }
}
