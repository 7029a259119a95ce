//! What `propose` reads: a line of digits for the ledger before the block, one for its header, and one for each call.

ghost use Rattle.std.specs.Prelude.{◌≡◌, IfOk};
ghost use Rattle.teal_value.specs.Answer.{Gives};
ghost use Rattle.avm_ledger.specs.declared.header.Profile.TheVariants.{Three};
ghost use Rattle.sha2.specs.Sha256.{sha256};
ghost use Rattle.avm_ledger.specs.LedgerReader.{ledger_at};
ghost use Rattle.avm_ledger.specs.Encodings.{ledger_bytes};
ghost use Rattle.avm_input.specs.BlockLines.{on_ledger};
ghost use Rattle.avm_input.specs.DigitLines.{digit_lines};
ghost use Rattle.avm_input.specs.Lines.{lines_shown};
ghost use Rattle.avm_input.specs.ProposeInputs.{header_and_calls, propose_input};
ghost use Rattle.avm_node.specs.ProposeShown.{input_shown};

use crate::call_lines::calls_of;
use avm_call::Call;
use avm_input::{DigitLines, NumberedLine, Refusal, header_of, line_bytes, needed_bytes};
use avm_ledger::{Base, Header, Ledger};
use sha2::{Digest, Sha256};
use std::alloc::Global;
use std::thread::{Threads, join};
use teal_value::Failure;

/// From how many bytes on a ledger is read, and has its digest made, by threads of their own: to make one for fewer costs more than
/// it saves.
const MUCH: usize = 16_384;

/// What calls are to be made of, on which ledger and by which header.
#[derive(Drop)]
pub struct ProposeInput {
    pub base: Base,
    pub header: Header,
    pub calls: Vec<Call>,
}

/// A ledger with its digest, or why the bytes are none.
type BaseRead = Result<Base, Failure<Refusal>>;

/// A header and calls, or the first refusal of a line.
type HeaderAndCalls = Result<(Header, Vec<Call>), Failure<Refusal>>;

/// What the lines are, or the first refusal in their order. The calls are read for so many workers, and where there are
/// several, while another thread reads a ledger of many bytes.
pub fn propose_input<R: Threads + Sync>(
    rt: &R,
    alloc: Global,
    workers: usize,
    mut input: Vec<u8>,
) -> Result<ProposeInput, Failure<Refusal>>
    ensures exact { Gives input_shown result (propose_input (digit_lines input.items)) }
    ensures profile { IfOk result (λ read. read.header.profile ≡ Three) }
{
    // What is taken next stands right behind it, and so does what takes its room when it is gone.
    input.shrink_to_fit();
    let mut lines = DigitLines::new(input.as_slice());
    let bytes = needed_bytes(alloc, &mut lines)?;
    let lines = lines.into_lines(alloc)?;
    let (base, behind) = if workers < 2 || bytes.len() < MUCH {
        let base = base_of(alloc, bytes.as_slice());
        // What the bytes took has room for the calls.
        drop(bytes);
        (base, header_and_calls(rt, alloc, workers, lines.as_slice()))
    } else {
        side_by_side(rt, alloc, workers, bytes.as_slice(), lines.as_slice())
    };
    let base = base?;
    let (header, calls) = behind?;
    Ok(ProposeInput {
        base,
        header,
        calls,
    })
}

/// The ledger that the bytes are, and what the lines behind it are, each read by a thread.
fn side_by_side<R: Threads + Sync>(
    rt: &R,
    alloc: Global,
    workers: usize,
    bytes: &[u8],
    lines: &[NumberedLine<'_>],
) -> (BaseRead, HeaderAndCalls)
    ensures base { Gives (λ base. base) result.0 (on_ledger (ledger_at bytes.now)) }
    ensures behind { Gives (λ read. (read.0, read.1.items)) result.1
        (header_and_calls (lines_shown lines.now)) }
    ensures profile { IfOk result.1 (λ read. read.0.profile ≡ Three) }
{
    join(
        rt,
        || -> BaseRead
            ensures { Gives (λ base. base) result (on_ledger (ledger_at bytes.entry.now)) }
        { base_by_two(rt, alloc, bytes) },
        || -> HeaderAndCalls
            ensures { Gives (λ read. (read.0, read.1.items)) result
                (header_and_calls (lines_shown lines.entry.now))
                × IfOk result (λ read. read.0.profile ≡ Three) }
        { header_and_calls(rt, alloc, workers, lines) },
    )
}

/// The ledger that the bytes are, with its digest, which another thread makes.
fn base_by_two<R: Threads + Sync>(rt: &R, alloc: Global, bytes: &[u8]) -> BaseRead
    ensures { Gives (λ base. base) result (on_ledger (ledger_at bytes.now)) }
{
    let (digest, ledger) = join(
        rt,
        || -> [u8; 32]
            ensures { result ≡ sha256 bytes.entry.now }
        { Sha256::digest(bytes) },
        || -> Result<Ledger, Failure<Refusal>>
            ensures { Gives (λ l. l) result (on_ledger (ledger_at bytes.entry.now))
                × IfOk result (λ l. ledger_bytes l ≡ bytes.entry.now) }
        { ledger_of(alloc, bytes) },
    );
    Ok(Base::with_digest(ledger?, digest))
}

/// The ledger that the bytes are, with its digest.
fn base_of(alloc: Global, bytes: &[u8]) -> BaseRead
    ensures { Gives (λ base. base) result (on_ledger (ledger_at bytes.now)) }
{
    let ledger = ledger_of(alloc, bytes)?;
    let digest = Sha256::digest(bytes);
    Ok(Base::with_digest(ledger, digest))
}

/// The ledger that the bytes are. They are its one encoding, so their digest is the ledger's.
fn ledger_of(alloc: Global, bytes: &[u8]) -> Result<Ledger, Failure<Refusal>>
    ensures exact { Gives (λ l. l) result (on_ledger (ledger_at bytes.now)) }
    ensures encoded { IfOk result (λ l. ledger_bytes l ≡ bytes.now) }
{
    Ledger::read(alloc, bytes).map_err(|failure| failure.map(Refusal::Ledger))
}

/// The header on the first of these lines, and the calls on the others.
fn header_and_calls<R: Threads + Sync>(
    rt: &R,
    alloc: Global,
    workers: usize,
    lines: &[NumberedLine<'_>],
) -> HeaderAndCalls
    ensures exact { Gives (λ read. (read.0, read.1.items)) result
        (header_and_calls (lines_shown lines.now)) }
    ensures profile { IfOk result (λ read. read.0.profile ≡ Three) }
{
    let Some((first, rest)) = lines.split_first() else {
        return Err(Failure::Fault(Refusal::Lines));
    };
    let bytes = line_bytes(alloc, first.0, first.1)?;
    let header = header_of(bytes.as_slice())?;
    let calls = calls_of(rt, alloc, workers, rest)?;
    Ok((header, calls))
}
