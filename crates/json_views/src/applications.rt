//! Applications as JSON.

ghost use Rattle.std.specs.Prelude.{◌≡◌, ◌++◌, OnOk};
ghost use Rattle.json.specs.Tree.{json_tokens};
ghost use Rattle.json_views.specs.Writing.{Adds};
ghost use Rattle.json_views.specs.Applications.{shown_application, shown_params, shown_schema};
ghost use Rattle.json_views.specs.ShownLedgers.{shown_applications};

use crate::states::put_state;
use crate::writing::{
    Writer, begin_array, begin_object, end_array, end_object, put_address_member,
    put_base64_member, put_name, put_uint_member,
};
use avm_ledger::{Ledger, StoredApplication};
use avm_states::Schema;
use std::alloc::{AllocError, Global};

/// The array of a ledger's applications, by rising id.
pub fn put_applications(alloc: Global, out: &mut Writer, ledger: &Ledger) -> Result<(), AllocError>
    ensures { OnOk result (Adds out.old out.new (json_tokens (shown_applications ledger.now))) }
{
    begin_array(out)?;
    for (id, application) in ledger.applications() {
        put_application(alloc, out, *id, application)?;
    }
    end_array(out)
}

fn put_application(
    alloc: Global,
    out: &mut Writer,
    id: u64,
    application: &StoredApplication,
) -> Result<(), AllocError>
    ensures { OnOk result
        (Adds out.old out.new (json_tokens (shown_application (id, application.now)))) }
{
    begin_object(out)?;
    put_uint_member(out, "id", id)?;
    put_name(out, "params")?;
    put_params(alloc, out, application)?;
    end_object(out)
}

fn put_params(
    alloc: Global,
    out: &mut Writer,
    application: &StoredApplication,
) -> Result<(), AllocError>
    ensures { OnOk result (Adds out.old out.new (json_tokens (shown_params application.now))) }
{
    let row = application.row.get();
    begin_object(out)?;
    put_base64_member(alloc, out, "approval-program", row.approval.as_slice())?;
    put_base64_member(alloc, out, "clear-state-program", row.clear.as_slice())?;
    put_address_member(alloc, out, "creator", &row.creator)?;
    put_name(out, "global-state")?;
    put_state(alloc, out, &application.state)?;
    put_name(out, "global-state-schema")?;
    put_schema(out, row.global_schema)?;
    put_name(out, "local-state-schema")?;
    put_schema(out, row.local_schema)?;
    end_object(out)
}

fn put_schema(out: &mut Writer, schema: Schema) -> Result<(), AllocError>
    ensures { OnOk result (Adds out.old out.new (json_tokens (shown_schema schema))) }
{
    begin_object(out)?;
    put_uint_member(out, "num-byte-slice", u64::from(schema.bytes))?;
    put_uint_member(out, "num-uint", u64::from(schema.uints))?;
    end_object(out)
}
