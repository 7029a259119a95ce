//! What belongs to accounts, an object for each of them. The entries come one after another, by rising account, and the current
//! account stays open until another one comes.

ghost use Rattle.std.specs.Prelude.{◌≡◌, ◌∷◌, [], OnOk};
ghost use Rattle.json.specs.Token.{end_array, end_object};
ghost use Rattle.teal_value.specs.SameValues.{are_same_bytes};
ghost use Rattle.json_views.specs.Writing.{Adds};
ghost use Rattle.json_views.specs.AccountTokens.{closing_tokens, opening_tokens, turning_tokens};

use crate::writing::{
    Writer, begin_array, begin_object, end_array, end_object, put_address_member, put_name,
};
use std::alloc::{AllocError, Global};
use teal_value::Address;

/// Goes on to what belongs to an account: where it is another than the current one, that is closed and this one opened. What
/// belongs to it is the member of a name.
pub fn turn_to(
    alloc: Global,
    out: &mut Writer,
    name: &str,
    current: Option<Address>,
    who: Address,
) -> Result<(), AllocError>
    ensures { OnOk result (Adds out.old out.new (turning_tokens name.now current who)) }
{
    match current {
        None => begin_account(alloc, out, name, &who),
        Some(before) if is_same(&before, &who) => Ok(()),
        Some(_before) => {
            end_account(out)?;
            begin_account(alloc, out, name, &who)
        }
    }
}

fn is_same(before: &Address, who: &Address) -> bool
    ensures { result ≡ are_same_bytes before.now.0 who.now.0 }
{
    before.0 == who.0
}

/// Closes the current account, if there is one.
pub fn close(out: &mut Writer, current: Option<Address>) -> Result<(), AllocError>
    ensures { OnOk result (Adds out.old out.new (closing_tokens current)) }
{
    match current {
        None => Ok(()),
        Some(_current) => end_account(out),
    }
}

/// All of an account up to what belongs to it.
fn begin_account(
    alloc: Global,
    out: &mut Writer,
    name: &str,
    who: &Address,
) -> Result<(), AllocError>
    ensures { OnOk result (Adds out.old out.new (opening_tokens name.now who.now)) }
{
    begin_object(out)?;
    put_address_member(alloc, out, "address", who)?;
    put_name(out, name)?;
    begin_array(out)
}

fn end_account(out: &mut Writer) -> Result<(), AllocError>
    ensures { OnOk result (Adds out.old out.new (end_array ∷ end_object ∷ [])) }
{
    end_array(out)?;
    end_object(out)
}
