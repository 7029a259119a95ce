//! Accounts, of which the local states count.

ghost use Rattle.std.specs.Prelude.{◌≡◌, [], codes};
ghost use Rattle.std.specs.Option.{option_copied};
ghost use Rattle.teal_value.specs.Answer.{Gives};
ghost use Rattle.avm_ledger.specs.LedgerReader.{local_room};
ghost use Rattle.avm_ledger.specs.Ledgers.{application_at};
ghost use Rattle.json.specs.Value.{value_view};
ghost use Rattle.json_documents.specs.Members.{optional};
ghost use Rattle.json_documents.specs.Drafts.{add_local_state};
ghost use Rattle.json_documents.specs.States.{state};

use crate::arrays::{Gather, optional_each};
use crate::deleted::still_known;
use crate::document_fault::DocumentFault;
use crate::fault::{Fault, FieldError};
use crate::ids::{Id, IdForm};
use crate::ledger_draft::{ApplicationDraft, LedgerDraft};
use crate::members::required;
use crate::placeholders::is_placeholder;
use crate::plain::PlainAddress;
use crate::states::{StateForm, optional_state};
use crate::tables::{ACCOUNT, LOCAL};
use avm_states::State;
use json::Value;
use std::alloc::Global;
use teal_value::Address;

/// The local states of an account, of applications with ids below this end, in a document that has placeholders or not.
#[derive(Clone, Copy)]
struct LocalStates {
    placeholders: bool,
    end: u64,
    who: Address,
}

impl Gather for LocalStates {
    type Gathered = LedgerDraft;

    ghost use Rattle.json_documents.specs.Accounts.{local};
    ghost use Rattle.json_documents.specs.Placeholders.{unless_placeholder};

    ghost adding = { λ a. unless_placeholder a.placeholders (local a.end a.who) };

    fn add(
        &self,
        alloc: Global,
        so_far: LedgerDraft,
        element: &Value<'_>,
    ) -> Result<LedgerDraft, FieldError> {
        if is_placeholder(self.placeholders, element) {
            return Ok(so_far);
        }
        still_known(alloc, &LOCAL, element)?;
        let id = required(alloc, &IdForm { end: self.end }, element, "id")?;
        let state = key_values(alloc, &so_far, id, element)?;
        add_local_state(alloc, so_far, self.who, id, state)
    }
}

/// The entries of a local state of the application of this id, for which there is room.
fn key_values(
    alloc: Global,
    ledger: &LedgerDraft,
    id: Id,
    local: &Value<'_>,
) -> Result<State, FieldError>
    ensures { Gives (λ s. s) result (optional (codes "key-value")
        (state (local_room (application_at ledger.now id))) [] (value_view local.now)) }
{
    let within = local_form(ledger.application(id.number()));
    optional_state(alloc, within, local, "key-value")
}

/// Local states under the local schema of their application, which may be gone.
fn local_form(application: Option<&ApplicationDraft>) -> StateForm
    ensures { result ≡ local_room (option_copied application.entry) }
{
    match application {
        Some(application) => StateForm::under(application.local_schema()),
        None => StateForm::of_deleted(),
    }
}

/// The ledger with a local state. One that stands twice has to be the same.
fn add_local_state(
    alloc: Global,
    ledger: LedgerDraft,
    who: Address,
    id: Id,
    state: State,
) -> Result<LedgerDraft, FieldError>
    ensures { Gives (λ l. l) result (add_local_state ledger who id state) }
{
    match ledger.local_state(who, id.number()) {
        None => Ok(ledger.with_local_state(who, id, state)?),
        Some(old) if *old == state => Ok(ledger),
        Some(_) => Err(Fault::here(alloc, DocumentFault::Differs)),
    }
}

/// Accounts with local states of applications with ids below this end, in a document that has placeholders or not.
#[derive(Clone, Copy)]
pub(crate) struct Accounts {
    pub placeholders: bool,
    pub end: u64,
}

impl Gather for Accounts {
    type Gathered = LedgerDraft;

    ghost use Rattle.json_documents.specs.Accounts.{account};

    ghost adding = { λ a. account a.placeholders a.end };

    fn add(
        &self,
        alloc: Global,
        so_far: LedgerDraft,
        element: &Value<'_>,
    ) -> Result<LedgerDraft, FieldError> {
        still_known(alloc, &ACCOUNT, element)?;
        let who = required(alloc, &PlainAddress, element, "address")?;
        let locals = LocalStates {
            placeholders: self.placeholders,
            end: self.end,
            who,
        };
        optional_each(alloc, &locals, so_far, element, "apps-local-state")
    }
}
