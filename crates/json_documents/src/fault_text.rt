//! The text of a fault.

ghost use Rattle.std.specs.Prelude.{◌≡◌, ◌++◌, IfOk, codes, decimal, string_bytes};
ghost use Rattle.teal_check.specs.FaultNames.{check_fault_name};
ghost use Rattle.teal_source.specs.FaultNames.{asm_fault_name};
ghost use Rattle.avm_input.specs.Refusals.{check_place};
ghost use Rattle.json.specs.Print.{quoted};
ghost use Rattle.json_documents.specs.Replies.{fault_text, place_text, rest_text};

use crate::document_fault::DocumentFault;
use crate::fault::Fault;
use avm_input::check_place;
use json::Writer;
use std::alloc::{AllocError, Global};
use teal_check::CheckFault;
use teal_source::AsmFault;

/// The line that names a fault.
pub(crate) fn fault_text(alloc: Global, fault: &Fault) -> Result<String, AllocError>
    ensures { IfOk result (λ text. string_bytes text ≡ fault_text fault.now) }
{
    let path = fault.path_text(alloc)?;
    let what = fault.what();
    let name = what.name();
    let rest = rest_text(alloc, what)?;
    format!(in alloc; "refused json {path} {name}{rest}\n")
}

/// What stands behind the name of a fault.
fn rest_text(alloc: Global, what: &DocumentFault) -> Result<String, AllocError>
    ensures { IfOk result (λ text. string_bytes text ≡ rest_text what.now) }
{
    match what {
        DocumentFault::Unknown(name) => unknown_text(alloc, name.as_str()),
        DocumentFault::Program(fault) => program_text(alloc, *fault),
        DocumentFault::Source(fault) => source_text(alloc, *fault),
        _ => nothing(alloc),
    }
}

fn nothing(alloc: Global) -> Result<String, AllocError>
    ensures { IfOk result (λ text. string_bytes text ≡ codes "") }
{
    String::from_str(alloc, "")
}

fn unknown_text(alloc: Global, name: &str) -> Result<String, AllocError>
    ensures { IfOk result (λ text. string_bytes text ≡ codes " " ++ quoted name.now) }
{
    let spelled = quoted(alloc, name)?;
    format!(in alloc; " {spelled}")
}

/// A name as JSON spells it.
fn quoted(alloc: Global, name: &str) -> Result<String, AllocError>
    ensures { IfOk result (λ text. string_bytes text ≡ quoted name.now) }
{
    let mut writer = Writer::new(Vec::new(alloc));
    writer.string(name)?;
    match String::from_utf8(writer.into_inner()) {
        Ok(text) => Ok(text),
        Err(_) => unreachable!(),
    }
}

fn program_text(alloc: Global, fault: CheckFault) -> Result<String, AllocError>
    ensures { IfOk result (λ text. string_bytes text
        ≡ codes " " ++ (check_fault_name fault ++ place_text (check_place fault))) }
{
    let name = fault.name();
    match check_place(fault) {
        Some(place) => format!(in alloc; " {name} {place}"),
        None => format!(in alloc; " {name}"),
    }
}

fn source_text(alloc: Global, fault: AsmFault) -> Result<String, AllocError>
    ensures { IfOk result (λ text. string_bytes text
        ≡ codes " " ++ (decimal fault.line ++ (codes " " ++ asm_fault_name fault.kind))) }
{
    let line = fault.line;
    let name = fault.kind.name();
    format!(in alloc; " {line} {name}")
}
