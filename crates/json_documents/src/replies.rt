//! What is answered to an input.

ghost use Rattle.std.specs.Prelude.{◌≡◌, Err, IfOk, Ok};
ghost use Rattle.avm_input.specs.Shown.{reply_shown};
ghost use Rattle.json_documents.specs.Reading.{document_of_text};
ghost use Rattle.json_documents.specs.Replies.{document_reply, lines_reply};
ghost use Rattle.json_documents.specs.Shown.{document_shown};

use crate::document::Document;
use crate::fault::Fault;
use crate::fault_text::fault_text;
use crate::lines::lines_text;
use crate::reading::read_document;
use avm_input::{DONE, REFUSED, Reply, input_refusal};
use std::alloc::{AllocError, Global};
use std::str;

/// What `lines` answers to an input that is not too long: the lines that `propose` reads, or the first fault.
pub fn lines_reply(alloc: Global, input: &[u8]) -> Result<Reply, AllocError>
    ensures { IfOk result (λ reply. reply_shown reply ≡ lines_reply input.now) }
{
    match str::from_utf8(input) {
        Ok(text) => text_reply(alloc, text),
        Err(_) => input_refusal(alloc),
    }
}

fn text_reply(alloc: Global, text: &str) -> Result<Reply, AllocError>
    ensures { IfOk result
        (λ reply. reply_shown reply ≡ document_reply (document_of_text text.now)) }
{
    match read_document(alloc, text) {
        Ok(document) => document_reply(alloc, &document),
        Err(failure) => fault_reply(alloc, &failure.into_fault()?),
    }
}

/// The lines of a document, as an answer.
fn document_reply(alloc: Global, document: &Document) -> Result<Reply, AllocError>
    ensures { IfOk result
        (λ reply. reply_shown reply ≡ document_reply (Ok (document_shown document.now))) }
{
    let text = lines_text(alloc, document)?;
    Ok(Reply {
        text: text.into_bytes(),
        status: DONE,
    })
}

/// The line that names a fault, as an answer.
fn fault_reply(alloc: Global, fault: &Fault) -> Result<Reply, AllocError>
    ensures { IfOk result (λ reply. reply_shown reply ≡ document_reply (Err fault.now)) }
{
    let text = fault_text(alloc, fault)?;
    Ok(Reply {
        text: text.into_bytes(),
        status: REFUSED,
    })
}
