//! Programs as source text, which stand apart from the applications and the transactions that they are for.

ghost use Rattle.std.specs.Prelude.{◌≡◌, IfOk};
ghost use Rattle.std.specs.Option.{option_copied};
ghost use Rattle.teal_value.specs.Answer.{Gives};
ghost use Rattle.json_documents.specs.Sources.{field_named, has_target, index_of, is_there, no_sources, only_source, program_at, targets, targets_from, with_none, with_source_at};

use crate::arrays::Gather;
use crate::document_fault::DocumentFault;
use crate::fault::{Fault, FieldError, in_item, in_member};
use crate::ledger_draft::LedgerDraft;
use crate::members::{Form, optional, reject_unknown, required};
use crate::placeholders::is_source_of_placeholder;
use crate::plain::{PlainText, Uint, text_of};
use crate::programs::program_of_source;
use crate::tables::SOURCE;
use json::Value;
use std::alloc::{AllocError, Global};
use std::collections::BTreeMap;
use std::marker::Model;
use teal_value::ByteString;

/// Which program a source is.
#[derive(Clone, Copy)]
pub(crate) enum SourceField {
    /// The approval program of an application.
    Approval,
    /// The clear state program of an application.
    Clear,
    /// The approval program that a transaction brings.
    CallApproval,
    /// The clear state program that a transaction brings.
    CallClear,
}

/// Which program a source of this name is.
#[derive(Clone, Copy)]
struct FieldForm;

impl Form for FieldForm {
    type Read = SourceField;

    ghost use Rattle.json_documents.specs.Sources.{source_field};

    ghost meaning = { λ _. source_field };

    fn read(&self, alloc: Global, value: &Value<'_>) -> Result<SourceField, FieldError> {
        let name = text_of(alloc, value)?;
        field_named(alloc, name)
    }
}

fn field_named(alloc: Global, name: &str) -> Result<SourceField, FieldError>
    ensures { Gives (λ f. f) result (field_named name.now) }
{
    match name {
        "approv" => Ok(SourceField::Approval),
        "clearp" => Ok(SourceField::Clear),
        "apap" => Ok(SourceField::CallApproval),
        "apsu" => Ok(SourceField::CallClear),
        _ => Err(Fault::here(alloc, DocumentFault::FieldName)),
    }
}

/// The programs of sources, found by what they are for, and what each is for in the order of the document; nothing, where it is
/// passed over.
pub(crate) struct Sources {
    places: Vec<Option<(SourceField, u64)>>,
    approvals: BTreeMap<u64, ByteString>,
    clears: BTreeMap<u64, ByteString>,
    call_approvals: BTreeMap<u64, ByteString>,
    call_clears: BTreeMap<u64, ByteString>,
}

/// Written out, so that whoever owns one drops it by one call and not part by part.
impl Drop for Sources {
    #[inline]
    fn drop(self) {
        let Sources {
            places: _,
            approvals: _,
            clears: _,
            call_approvals: _,
            call_clears: _,
        } = self;
    }
}

impl Model for Sources {
    ghost use Rattle.json_documents.specs.Sources.{Sources as SourceLists};

    ghost Value = { SourceLists };

    ghost view = { λ s. record { places = s.places.items; approvals = s.approvals.entries; clears = s.clears.entries; call_approvals = s.call_approvals.entries; call_clears = s.call_clears.entries } };
}

impl Sources {
    /// No sources. They take no memory.
    pub fn new(alloc: Global) -> Sources
        ensures { result ≡ no_sources }
    {
        Sources {
            places: Vec::new(alloc),
            approvals: BTreeMap::new(alloc),
            clears: BTreeMap::new(alloc),
            call_approvals: BTreeMap::new(alloc),
            call_clears: BTreeMap::new(alloc),
        }
    }

    /// The program that is this field of an application's id or a transaction's index.
    pub fn program_at(&self, field: SourceField, index: u64) -> Option<&ByteString>
        ensures { option_copied result ≡ program_at self.now field index }
    {
        match field {
            SourceField::Approval => self.approvals.get(&index),
            SourceField::Clear => self.clears.get(&index),
            SourceField::CallApproval => self.call_approvals.get(&index),
            SourceField::CallClear => self.call_clears.get(&index),
        }
    }

    /// The sources with one more.
    fn with(self, field: SourceField, index: u64, code: ByteString) -> Result<Sources, AllocError>
        ensures { IfOk result (λ s. s ≡ with_source_at self field index code) }
    {
        let mut sources = self;
        sources.places.push(Some((field, index)))?;
        match field {
            SourceField::Approval => sources.approvals.insert(index, code)?,
            SourceField::Clear => sources.clears.insert(index, code)?,
            SourceField::CallApproval => sources.call_approvals.insert(index, code)?,
            SourceField::CallClear => sources.call_clears.insert(index, code)?,
        };
        Ok(sources)
    }

    /// The sources with one that is passed over.
    fn with_none(self) -> Result<Sources, AllocError>
        ensures { IfOk result (λ s. s ≡ with_none self) }
    {
        let mut sources = self;
        sources.places.push(None)?;
        Ok(sources)
    }

    /// Refuses the first source whose target is not in the document, of which these are the ledger and the count of calls.
    pub fn targets(
        &self,
        alloc: Global,
        ledger: &LedgerDraft,
        calls: usize,
    ) -> Result<(), FieldError>
        ensures { Gives (λ x. x) result (targets self.now ledger.now calls) }
    {
        match check_targets(alloc, ledger, calls, &self.places) {
            Ok(()) => Ok(()),
            Err(failure) => Err(in_member(failure, "sources")),
        }
    }
}

/// Refuses the first of the places that is not in the document.
#[tactic(auto, unfolding(crate::specs::Sources::targets_from))]
fn check_targets(
    alloc: Global,
    ledger: &LedgerDraft,
    calls: usize,
    places: &[Option<(SourceField, u64)>],
) -> Result<(), FieldError>
    ensures { Gives (λ x. x) result (targets_from 0 ledger.now calls places.now) }
{
    'places: for (index, place) in places.iter().enumerate() {
        if !has_target(ledger, calls, *place) {
            return Err(in_item(Fault::here(alloc, DocumentFault::NoTarget), index));
        }
    }
    Ok(())
}

/// Whether the target of a source is in the document. What has no place needs none.
fn has_target(ledger: &LedgerDraft, calls: usize, place: Option<(SourceField, u64)>) -> bool
    ensures { result ≡ has_target ledger.now calls place }
{
    match place {
        Some(place) => is_there(ledger, calls, place),
        None => true,
    }
}

/// Whether a place is in the document.
fn is_there(ledger: &LedgerDraft, calls: usize, place: (SourceField, u64)) -> bool
    ensures { result ≡ is_there ledger.now calls place }
{
    let (field, index) = place;
    match field {
        SourceField::Approval | SourceField::Clear => ledger.application(index).is_some(),
        SourceField::CallApproval | SourceField::CallClear => index < calls as u64,
    }
}

/// The index that counts for a field.
fn index_of(field: SourceField, application: u64, transaction: u64) -> u64
    ensures { result ≡ index_of field application transaction }
{
    match field {
        SourceField::Approval | SourceField::Clear => application,
        SourceField::CallApproval | SourceField::CallClear => transaction,
    }
}

/// Sources, each for a place of its own, in a document that has placeholders or not.
#[derive(Clone, Copy)]
pub(crate) struct SourceTexts {
    pub placeholders: bool,
}

impl Gather for SourceTexts {
    type Gathered = Sources;

    ghost use Rattle.json_documents.specs.Sources.{source};

    ghost adding = { λ a. source a.placeholders };

    fn add(
        &self,
        alloc: Global,
        so_far: Sources,
        element: &Value<'_>,
    ) -> Result<Sources, FieldError> {
        if is_source_of_placeholder(self.placeholders, element) {
            return Ok(so_far.with_none()?);
        }
        reject_unknown(alloc, &SOURCE, element)?;
        let application = optional(alloc, &Uint, 0, element, "app-index")?;
        let field = required(alloc, &FieldForm, element, "field-name")?;
        let text = required(alloc, &PlainText, element, "source")?;
        let transaction = optional(alloc, &Uint, 0, element, "txn-index")?;
        let index = index_of(field, application, transaction);
        only_source(alloc, so_far, field, index, text.as_str())
    }
}

/// The sources with one more, where its place is free.
fn only_source(
    alloc: Global,
    sources: Sources,
    field: SourceField,
    index: u64,
    text: &str,
) -> Result<Sources, FieldError>
    ensures { Gives (λ s. s) result (only_source sources field index text.now) }
{
    if sources.program_at(field, index).is_some() {
        return Err(Fault::here(alloc, DocumentFault::Twice));
    }
    match program_of_source(alloc, text) {
        Ok(code) => Ok(sources.with(field, index, code)?),
        Err(failure) => Err(in_member(failure, "source")),
    }
}
