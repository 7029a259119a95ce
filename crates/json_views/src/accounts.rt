//! Accounts with their local states as JSON.

ghost use Rattle.std.specs.Prelude.{◌≡◌, ◌++◌, OnOk};
ghost use Rattle.json.specs.Tree.{json_tokens};
ghost use Rattle.json_views.specs.Writing.{Adds};
ghost use Rattle.json_views.specs.Accounts.{shown_local};
ghost use Rattle.json_views.specs.ShownLedgers.{shown_accounts};

use crate::by_account::{close, turn_to};
use crate::states::put_state;
use crate::writing::{
    Writer, begin_array, begin_object, end_array, end_object, put_name, put_uint_member,
};
use avm_ledger::Ledger;
use avm_states::State;
use std::alloc::{AllocError, Global};

/// The array of the accounts that have local states in a ledger, by rising address.
pub fn put_accounts(alloc: Global, out: &mut Writer, ledger: &Ledger) -> Result<(), AllocError>
    ensures { OnOk result (Adds out.old out.new (json_tokens (shown_accounts ledger.now))) }
{
    begin_array(out)?;
    let mut current = None;
    for (key, state) in ledger.local_states() {
        let (who, id) = *key;
        turn_to(alloc, out, "apps-local-state", current, who)?;
        current = Some(who);
        put_local(alloc, out, id, state.get())?;
    }
    close(out, current)?;
    end_array(out)
}

fn put_local(alloc: Global, out: &mut Writer, id: u64, state: &State) -> Result<(), AllocError>
    ensures { OnOk result (Adds out.old out.new (json_tokens (shown_local (id, state.now)))) }
{
    begin_object(out)?;
    put_uint_member(out, "id", id)?;
    put_name(out, "key-value")?;
    put_state(alloc, out, state)?;
    end_object(out)
}
