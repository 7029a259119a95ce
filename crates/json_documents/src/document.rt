//! A document: a ledger, a header, and calls.

ghost use Rattle.std.specs.Prelude.{◌≡◌};
ghost use Rattle.teal_value.specs.Answer.{Gives};
ghost use Rattle.json.specs.Value.{value_view};
ghost use Rattle.json_documents.specs.Documents.{all_sources, applications, document, front, ledger, members};
ghost use Rattle.json_documents.specs.Shown.{document_shown, front_shown};

use crate::accounts::Accounts;
use crate::applications::Applications;
use crate::arrays::optional_each;
use crate::calls::Calls;
use crate::fault::FieldError;
use crate::ids::{NextIdForm, end_of_ids, first_next_id};
use crate::ledger_draft::LedgerDraft;
use crate::members::{optional, reject_unknown};
use crate::placeholders::has_placeholders;
use crate::plain::Uint;
use crate::sources::{SourceTexts, Sources};
use crate::tables::DOCUMENT;
use crate::transactions::TransactionsForm;
use avm_ledger::{Header, Profile};
use json::Value;
use std::alloc::Global;

/// What a document says: a ledger, the header of a block over it, and calls for the block.
#[derive(Drop)]
pub(crate) struct Document {
    pub ledger: LedgerDraft,
    pub header: Header,
    pub calls: Calls,
}

/// The header, and the next id where it is given.
#[derive(Clone, Copy)]
struct Front {
    header: Header,
    next_id: Option<u64>,
}

/// What a document says, or its first fault.
pub(crate) fn document_of(alloc: Global, value: &Value<'_>) -> Result<Document, FieldError>
    ensures { Gives document_shown result (document (value_view value.now)) }
{
    reject_unknown(alloc, &DOCUMENT, value)?;
    members(alloc, has_placeholders(value), value)
}

/// What its members say, and at last whether the targets of sources are there.
fn members(alloc: Global, placeholders: bool, value: &Value<'_>) -> Result<Document, FieldError>
    ensures { Gives document_shown result (members placeholders (value_view value.now)) }
{
    let front = front_of(alloc, value)?;
    let sources = all_sources(alloc, placeholders, value)?;
    let ledger = ledger(alloc, placeholders, front.next_id, &sources, value)?;
    let form = TransactionsForm { sources: &sources };
    let calls = optional(alloc, &form, Calls::new(alloc), value, "txns")?;
    sources.targets(alloc, &ledger, calls.len())?;
    Ok(Document {
        ledger,
        header: front.header,
        calls,
    })
}

/// The members that are numbers. The defaults are those of the public network.
fn front_of(alloc: Global, value: &Value<'_>) -> Result<Front, FieldError>
    ensures { Gives front_shown result (front (value_view value.now)) }
{
    let latest_timestamp = optional(alloc, &Uint, 0, value, "latest-timestamp")?;
    let max_life = optional(alloc, &Uint, 1000, value, "max-life")?;
    let min_balance = optional(alloc, &Uint, 100_000, value, "min-balance")?;
    let min_fee = optional(alloc, &Uint, 1000, value, "min-fee")?;
    let next_id = optional(alloc, &NextIdForm, None, value, "next-id")?;
    let round = optional(alloc, &Uint, 0, value, "round")?;
    let header = Header {
        profile: Profile::Three,
        round,
        latest_timestamp,
        min_fee,
        min_balance,
        max_life,
    };
    Ok(Front { header, next_id })
}

/// The programs that stand as source text.
fn all_sources(alloc: Global, placeholders: bool, value: &Value<'_>) -> Result<Sources, FieldError>
    ensures { Gives (λ s. s) result (all_sources placeholders (value_view value.now)) }
{
    let texts = SourceTexts { placeholders };
    optional_each(alloc, &texts, Sources::new(alloc), value, "sources")
}

/// The applications and the local states of accounts.
fn ledger(
    alloc: Global,
    placeholders: bool,
    next_id: Option<u64>,
    sources: &Sources,
    value: &Value<'_>,
) -> Result<LedgerDraft, FieldError>
    ensures { Gives (λ l. l) result (ledger placeholders next_id sources.now
        (value_view value.now)) }
{
    let ledger = applications(alloc, placeholders, next_id, sources, value)?;
    let accounts = Accounts {
        placeholders,
        end: end_of_ids(next_id),
    };
    optional_each(alloc, &accounts, ledger, value, "accounts")
}

/// The applications alone.
fn applications(
    alloc: Global,
    placeholders: bool,
    next_id: Option<u64>,
    sources: &Sources,
    value: &Value<'_>,
) -> Result<LedgerDraft, FieldError>
    ensures { Gives (λ l. l) result (applications placeholders next_id sources.now
        (value_view value.now)) }
{
    let bare = LedgerDraft::new(alloc, first_next_id(next_id));
    let applications = Applications {
        placeholders,
        end: end_of_ids(next_id),
        sources,
    };
    optional_each(alloc, &applications, bare, value, "apps")
}
