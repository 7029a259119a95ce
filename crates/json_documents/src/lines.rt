//! The lines that a document becomes.

ghost use Rattle.std.specs.Prelude.{◌≡◌, ◌++◌, IfOk, OnOk, string_bytes};
ghost use Rattle.std.specs.List.{flat_map};
ghost use Rattle.json_documents.specs.Lines.{call_line, line, lines_text};
ghost use Rattle.json_documents.specs.Shown.{document_shown};

use crate::calls::SharedCall;
use crate::document::Document;
use avm_block::header_codec::put_header;
use avm_call_codec::CallCodec;
use avm_input::digit_line;
use avm_items::CallData;
use std::alloc::{AllocError, Global};

/// What `propose` reads: a line for the ledger, one for the header, and one for each call.
pub(crate) fn lines_text(alloc: Global, document: &Document) -> Result<String, AllocError>
    ensures { IfOk result (λ text. string_bytes text ≡ lines_text (document_shown document.now)) }
{
    let mut text = String::new(alloc);
    let ledger = document.ledger.canonical(alloc)?;
    push_line(alloc, &mut text, ledger.as_slice())?;
    let mut header = Vec::new(alloc);
    put_header(&mut header, &document.header)?;
    push_line(alloc, &mut text, header.as_slice())?;
    push_calls(alloc, &mut text, document.calls.as_slice())?;
    Ok(text)
}

/// Appends a line for each call.
fn push_calls(alloc: Global, text: &mut String, calls: &[SharedCall]) -> Result<(), AllocError>
    ensures { OnOk result
        (string_bytes text.new ≡ string_bytes text.old ++ flat_map call_line calls.now) }
{
    for call in calls {
        push_call(alloc, text, call.fields())?;
    }
    Ok(())
}

fn push_call(alloc: Global, text: &mut String, call: &CallData) -> Result<(), AllocError>
    ensures { OnOk result (string_bytes text.new ≡ string_bytes text.old ++ call_line call.now) }
{
    let mut bytes = Vec::new(alloc);
    call.encode_into(&mut bytes)?;
    push_line(alloc, text, bytes.as_slice())
}

/// Appends bytes as a line of lower-case digits.
fn push_line(alloc: Global, text: &mut String, bytes: &[u8]) -> Result<(), AllocError>
    ensures { OnOk result (string_bytes text.new ≡ string_bytes text.old ++ line bytes.now) }
{
    let line = digit_line(alloc, bytes)?;
    text.push_str(line.as_str())
}
