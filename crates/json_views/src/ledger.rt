//! A ledger as JSON.

ghost use Rattle.std.specs.Prelude.{OnOk};
ghost use Rattle.json.specs.Tree.{json_tokens};
ghost use Rattle.json_views.specs.Writing.{Adds};
ghost use Rattle.json_views.specs.ShownLedgers.{shown_ledger};

use crate::accounts::put_accounts;
use crate::applications::put_applications;
use crate::writing::{
    Writer, begin_object, end_object, put_digits_member, put_name, put_uint_member,
};
use avm_ledger::Base;
use std::alloc::{AllocError, Global};

/// The document of a ledger.
pub fn put_ledger(alloc: Global, out: &mut Writer, base: &Base) -> Result<(), AllocError>
    ensures { OnOk result (Adds out.old out.new (json_tokens (shown_ledger base.now))) }
{
    let ledger = base.ledger();
    begin_object(out)?;
    put_name(out, "accounts")?;
    put_accounts(alloc, out, ledger)?;
    put_name(out, "apps")?;
    put_applications(alloc, out, ledger)?;
    put_name(out, "digests")?;
    begin_object(out)?;
    put_digits_member(alloc, out, "ledger", base.digest())?;
    end_object(out)?;
    put_uint_member(out, "next-id", ledger.next_id())?;
    end_object(out)
}
