//! Documents of JSON that are ledgers, headers and calls, in the words of Algorand's tools: a DryrunRequest of `goal`, with
//! the few members beside it that this machine's ledger needs.
//!
//! What a document means stands in `specs/Documents.antt`, over the modules for its parts; what is answered to an input in
//! `specs/Replies.antt`. The first fault counts, in the order of the tables of members, and not in that of the text.
//!
//! How the parts of any document are read stands in `specs/Members.antt`, `specs/Arrays.antt` and `specs/Plain.antt`, over the
//! values of the kit's `json`: the members of objects, the elements of arrays, and plain values. A fault is built up on the way
//! out (`specs/Faults.antt`), so that nothing is done for the way where there is none.
#![tactic(auto)]

mod accounts;
mod applications;
mod arrays;
mod call_parts;
mod call_values;
mod calls;
mod deleted;
mod document;
mod document_fault;
mod entries;
mod fault;
mod fault_text;
mod groups;
mod ids;
mod ledger_draft;
mod lines;
mod members;
mod placeholders;
mod plain;
mod programs;
mod reading;
mod replies;
mod schemas;
mod sources;
mod states;
mod step;
mod tables;
mod text;
mod transactions;

pub use arrays::{Gather, each, optional_each};
pub use document_fault::DocumentFault;
pub use fault::{Fault, FieldError, in_item, in_member};
pub use members::{Form, member, optional, reject_unknown, required};
pub use plain::{Bytes, PlainAddress, PlainText, Uint, text_of};
pub use replies::lines_reply;
pub use text::Text;
