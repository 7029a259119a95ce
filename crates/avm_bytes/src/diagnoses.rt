//! What is wrong with bytes that a function refused.

ghost use Rattle.std.specs.Prelude.{◌≡◌, IfOk};
ghost use Rattle.avm_bytes.specs.Diagnoses.{asm_number, block_number, code_number, kind_of, ledger_number, of_asm_fault, of_block, of_call, of_check_fault, of_header, of_items, of_ledger, of_program, of_source, of_text, wrong_with};

use crate::attempts::{call_of, header_of};
use crate::statuses::Status;
use crate::troubles::{Refused, Trouble, refused_for};
use avm_block::{BlockFault, decode};
use avm_item_codec::read_items;
use avm_ledger::{Ledger, LedgerFault};
use std::alloc::{AllocError, Global};
use std::str;
use teal_asm::assemble;
use teal_check::{CheckFault, check};
use teal_code::CodeFault;
use teal_source::{AsmFault, AsmFaultKind};

/// What bytes are taken for.
#[derive(Clone, Copy)]
pub enum Kind {
    /// Source text.
    Text,
    /// A program.
    Program,
    /// A ledger.
    Ledger,
    /// A block.
    Block,
    /// A header.
    Header,
    /// A call.
    Call,
    /// Items with their values.
    Items,
}

/// What the bytes are not that a function refuses with this status.
pub fn kind_of(status: u32) -> Option<Kind>
    ensures { result ≡ kind_of status }
{
    match status {
        6 | 7 => Some(Kind::Text),
        8 => Some(Kind::Program),
        9 => Some(Kind::Ledger),
        10 => Some(Kind::Block),
        18 => Some(Kind::Header),
        19 => Some(Kind::Call),
        20 => Some(Kind::Items),
        _ => None,
    }
}

/// What is wrong with the bytes, if anything is.
pub fn wrong_with(alloc: Global, kind: Kind, bytes: &[u8]) -> Result<Option<Refused>, AllocError>
    ensures { IfOk result (λ found. found ≡ wrong_with kind bytes.now) }
{
    match kind {
        Kind::Text => of_text(alloc, bytes),
        Kind::Program => of_program(alloc, bytes),
        Kind::Ledger => of_ledger(alloc, bytes),
        Kind::Block => of_block(alloc, bytes),
        Kind::Header => of_header(bytes),
        Kind::Call => of_call(alloc, bytes),
        Kind::Items => of_items(alloc, bytes),
    }
}

fn of_text(alloc: Global, bytes: &[u8]) -> Result<Option<Refused>, AllocError>
    ensures { IfOk result (λ found. found ≡ of_text bytes.now) }
{
    match str::from_utf8(bytes) {
        Ok(text) => of_source(alloc, text),
        Err(_) => Ok(Some(refused_for(Status::NoText, 0))),
    }
}

fn of_source(alloc: Global, text: &str) -> Result<Option<Refused>, AllocError>
    ensures { IfOk result (λ found. found ≡ of_source text.now) }
{
    match assemble(alloc, text) {
        Ok(_program) => Ok(None),
        Err(failure) => Ok(Some(of_asm_fault(failure.into_fault()?))),
    }
}

fn of_program(alloc: Global, bytes: &[u8]) -> Result<Option<Refused>, AllocError>
    ensures { IfOk result (λ found. found ≡ of_program bytes.now) }
{
    match check(alloc, bytes) {
        Ok(_program) => Ok(None),
        Err(failure) => Ok(Some(of_check_fault(failure.into_fault()?))),
    }
}

fn of_ledger(alloc: Global, bytes: &[u8]) -> Result<Option<Refused>, AllocError>
    ensures { IfOk result (λ found. found ≡ of_ledger bytes.now) }
{
    match Ledger::read(alloc, bytes) {
        Ok(_ledger) => Ok(None),
        Err(failure) => {
            let number = ledger_number(failure.into_fault()?);
            Ok(Some(refused_for(Status::NoLedger, number)))
        }
    }
}

fn of_block(alloc: Global, bytes: &[u8]) -> Result<Option<Refused>, AllocError>
    ensures { IfOk result (λ found. found ≡ of_block bytes.now) }
{
    match decode(alloc, bytes) {
        Ok(_block) => Ok(None),
        Err(failure) => {
            let number = block_number(failure.into_fault()?);
            Ok(Some(refused_for(Status::NoBlock, number)))
        }
    }
}

fn of_header(bytes: &[u8]) -> Result<Option<Refused>, AllocError>
    ensures { IfOk result (λ found. found ≡ of_header bytes.now) }
{
    match header_of(bytes) {
        Ok(_header) => Ok(None),
        Err(failure) => Ok(Some(failure.into_fault()?)),
    }
}

fn of_call(alloc: Global, bytes: &[u8]) -> Result<Option<Refused>, AllocError>
    ensures { IfOk result (λ found. found ≡ of_call bytes.now) }
{
    match call_of(alloc, bytes) {
        Ok(_call) => Ok(None),
        Err(failure) => Ok(Some(failure.into_fault()?)),
    }
}

fn of_items(alloc: Global, bytes: &[u8]) -> Result<Option<Refused>, AllocError>
    ensures { IfOk result (λ found. found ≡ of_items bytes.now) }
{
    match read_items(alloc, bytes) {
        Ok(_items) => Ok(None),
        Err(failure) => {
            let number = ledger_number(failure.into_fault()?);
            Ok(Some(refused_for(Status::NoItems, number)))
        }
    }
}

/// The line of a text that has a fault, and the fault's number.
fn of_asm_fault(fault: AsmFault) -> Refused
    ensures { result ≡ of_asm_fault fault }
{
    Refused {
        status: Status::NotAssembled,
        trouble: Trouble {
            place: fault.line as u64,
            number: asm_number(fault.kind),
            code: 0,
        },
    }
}

/// The rule that a program breaks, and where.
fn of_check_fault(fault: CheckFault) -> Refused
    ensures { result ≡ of_check_fault fault }
{
    let (place, code) = match fault {
        CheckFault::Code { place, fault } => (place, code_number(fault)),
        CheckFault::OutOfProfile { place }
        | CheckFault::Backward { place }
        | CheckFault::NotAligned { place }
        | CheckFault::PastEnd { place }
        | CheckFault::UnknownField { place } => (place, 0),
        CheckFault::Version | CheckFault::Length | CheckFault::Cost => (0, 0),
    };
    Refused {
        status: Status::NoProgram,
        trouble: Trouble {
            place: u64::from(place),
            number: u32::from(fault.number()),
            code,
        },
    }
}

fn code_number(fault: CodeFault) -> u32
    ensures { result ≡ code_number fault }
{
    match fault {
        CodeFault::UnknownOp => 1,
        CodeFault::Truncated => 2,
        CodeFault::BadVaruint => 3,
    }
}

fn asm_number(kind: AsmFaultKind) -> u32
    ensures { result ≡ asm_number kind }
{
    match kind {
        AsmFaultKind::Text => 1,
        AsmFaultKind::NoPragma => 2,
        AsmFaultKind::Version => 3,
        AsmFaultKind::UnknownName => 4,
        AsmFaultKind::Operands => 5,
        AsmFaultKind::BadNumber => 6,
        AsmFaultKind::BadBytes => 7,
        AsmFaultKind::LabelTwice => 8,
        AsmFaultKind::LabelMissing => 9,
        AsmFaultKind::LabelBehind => 10,
        AsmFaultKind::TooManyConstants => 11,
        AsmFaultKind::MixedBlock => 12,
        AsmFaultKind::TooLong => 13,
    }
}

fn ledger_number(fault: LedgerFault) -> u32
    ensures { result ≡ ledger_number fault }
{
    match fault {
        LedgerFault::Malformed => 1,
        LedgerFault::Truncated => 2,
        LedgerFault::Rest => 3,
    }
}

fn block_number(fault: BlockFault) -> u32
    ensures { result ≡ block_number fault }
{
    match fault {
        BlockFault::Magic => 1,
        BlockFault::Format => 2,
        BlockFault::Truncated => 3,
        BlockFault::Rest => 4,
        BlockFault::Order => 5,
        BlockFault::Field => 6,
        BlockFault::Digest => 7,
    }
}
