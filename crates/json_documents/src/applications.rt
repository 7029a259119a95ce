//! Applications.

ghost use Rattle.std.specs.Prelude.{◌≡◌, [], codes};
ghost use Rattle.teal_value.specs.Answer.{Gives};
ghost use Rattle.avm_ledger.specs.LedgerReader.{room_of_schema};
ghost use Rattle.json.specs.Value.{value_view};
ghost use Rattle.json_documents.specs.Members.{required, optional};
ghost use Rattle.json_documents.specs.declared.sources.SourceField.TheVariants as field;
ghost use Rattle.avm_states.specs.Schemas.{no_entries};
ghost use Rattle.json_documents.specs.Applications.{application, limits, params};
ghost use Rattle.json_documents.specs.Drafts.{add_application};
ghost use Rattle.json_documents.specs.Programs.{given_or, program};
ghost use Rattle.json_documents.specs.Schemas.{schema};
ghost use Rattle.json_documents.specs.Shown.{limits_shown};
ghost use Rattle.json_documents.specs.Sources.{program_at};
ghost use Rattle.json_documents.specs.States.{state};

use crate::arrays::Gather;
use crate::deleted::still_known;
use crate::document_fault::DocumentFault;
use crate::fault::{Fault, FieldError};
use crate::ids::{Id, IdForm};
use crate::ledger_draft::{ApplicationDraft, LedgerDraft};
use crate::members::{Form, optional, reject_unknown, required};
use crate::placeholders::is_placeholder;
use crate::plain::PlainAddress;
use crate::programs::ProgramForm;
use crate::schemas::{NO_ENTRIES, SchemaForm};
use crate::sources::{SourceField, Sources};
use crate::states::{StateForm, optional_state};
use crate::tables::{APPLICATION, PARAMS};
use avm_states::{MAX_GLOBAL_ENTRIES, MAX_LOCAL_ENTRIES, Schema, State};
use json::Value;
use std::alloc::Global;
use teal_value::ByteString;

/// What an application is made with, which has this id.
#[derive(Clone, Copy)]
struct ParamsForm<'s> {
    sources: &'s Sources,
    id: u64,
}

impl Form for ParamsForm<'_> {
    type Read = ApplicationDraft;

    ghost use Rattle.json_documents.specs.Applications.{params};

    ghost meaning = { λ f. params f.sources.now f.id };

    fn read(&self, alloc: Global, value: &Value<'_>) -> Result<ApplicationDraft, FieldError> {
        reject_unknown(alloc, &PARAMS, value)?;
        let approval = self.program(alloc, SourceField::Approval, value, "approval-program")?;
        let clear = self.program(alloc, SourceField::Clear, value, "clear-state-program")?;
        let creator = required(alloc, &PlainAddress, value, "creator")?;
        let limits = limits(alloc, value)?;
        Ok(ApplicationDraft {
            creator,
            approval,
            clear,
            global_schema: limits.global_schema,
            local_schema: limits.local_schema,
            state: limits.state,
        })
    }
}

impl ParamsForm<'_> {
    /// A program, which a source may give in place of the member.
    fn program(
        &self,
        alloc: Global,
        field: SourceField,
        params: &Value<'_>,
        name: &'static str,
    ) -> Result<ByteString, FieldError>
        ensures { Gives (λ c. c) result (given_or (program_at self.now.sources.now
            field self.now.id) (required name.now program (value_view params.now))) }
    {
        match self.sources.program_at(field, self.id) {
            Some(code) => Ok(code.clone()?),
            None => required(alloc, &ProgramForm, params, name),
        }
    }
}

/// An application's schemas, and its own state within the first.
#[derive(Drop)]
struct ReadLimits {
    global_schema: Schema,
    local_schema: Schema,
    state: State,
}

fn limits(alloc: Global, params: &Value<'_>) -> Result<ReadLimits, FieldError>
    ensures { Gives limits_shown result (limits (value_view params.now)) }
{
    let global_schema = schema(
        alloc,
        MAX_GLOBAL_ENTRIES as u8,
        params,
        "global-state-schema",
    )?;
    let local_schema = schema(alloc, MAX_LOCAL_ENTRIES as u8, params, "local-state-schema")?;
    let state = global_state(alloc, global_schema, params)?;
    Ok(ReadLimits {
        global_schema,
        local_schema,
        state,
    })
}

/// A schema of at most so many entries, which has none where it is missing.
fn schema(
    alloc: Global,
    most: u8,
    params: &Value<'_>,
    name: &'static str,
) -> Result<Schema, FieldError>
    ensures { Gives (λ s. s) result (optional name.now (schema (codes "num-byte-slice")
        (codes "num-uint") most) no_entries (value_view params.now)) }
{
    let form = SchemaForm::of_application(most);
    optional(alloc, &form, NO_ENTRIES, params, name)
}

/// The entries of an application's own state, for which there is room.
fn global_state(alloc: Global, schema: Schema, params: &Value<'_>) -> Result<State, FieldError>
    ensures { Gives (λ s. s) result (optional (codes "global-state")
        (state (room_of_schema schema)) [] (value_view params.now)) }
{
    let within = StateForm::under(schema);
    optional_state(alloc, within, params, "global-state")
}

/// Applications with ids below this end, beside one another, in a document that has placeholders or not.
#[derive(Clone, Copy)]
pub(crate) struct Applications<'s> {
    pub placeholders: bool,
    pub end: u64,
    pub sources: &'s Sources,
}

impl Gather for Applications<'_> {
    type Gathered = LedgerDraft;

    ghost use Rattle.json_documents.specs.Applications.{application};
    ghost use Rattle.json_documents.specs.Placeholders.{unless_placeholder};

    ghost adding = { λ a. unless_placeholder a.placeholders (application a.end a.sources.now) };

    fn add(
        &self,
        alloc: Global,
        so_far: LedgerDraft,
        element: &Value<'_>,
    ) -> Result<LedgerDraft, FieldError> {
        if is_placeholder(self.placeholders, element) {
            Ok(so_far)
        } else {
            self.add_one(alloc, so_far, element)
        }
    }
}

impl Applications<'_> {
    /// Adds an application.
    fn add_one(
        &self,
        alloc: Global,
        so_far: LedgerDraft,
        element: &Value<'_>,
    ) -> Result<LedgerDraft, FieldError>
        ensures { Gives (λ l. l) result
            (application self.now.end self.now.sources.now so_far (value_view element.now)) }
    {
        still_known(alloc, &APPLICATION, element)?;
        let id = required(alloc, &IdForm { end: self.end }, element, "id")?;
        let application = self.params(alloc, id, element)?;
        add_application(alloc, so_far, id, application)
    }

    /// What the application of this id is made with.
    fn params(
        &self,
        alloc: Global,
        id: Id,
        element: &Value<'_>,
    ) -> Result<ApplicationDraft, FieldError>
        ensures { Gives (λ a. a) result
            (required (codes "params") (params self.now.sources.now id) (value_view element.now)) }
    {
        let params = ParamsForm {
            sources: self.sources,
            id: id.number(),
        };
        required(alloc, &params, element, "params")
    }
}

/// The ledger with an application. One that stands twice has to be the same.
fn add_application(
    alloc: Global,
    ledger: LedgerDraft,
    id: Id,
    application: ApplicationDraft,
) -> Result<LedgerDraft, FieldError>
    ensures { Gives (λ l. l) result (add_application ledger id application) }
{
    match ledger.application(id.number()) {
        None => Ok(ledger.with_application(id, application)?),
        Some(old) if old.is_same(&application) => Ok(ledger),
        Some(_) => Err(Fault::here(alloc, DocumentFault::Differs)),
    }
}
