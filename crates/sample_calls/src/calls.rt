//! Calls by the words of rows.

use crate::programs::Programs;
use crate::words::{account, bytes};
use avm_call::{Call, CallFault};
use avm_items::{Addresses, CallData, Completion};
use avm_ledger::{Header, Profile};
use avm_states::Schema;
use std::alloc::Global;
use std::test::Fail;
use teal_value::{Address, ByteString, ByteStrings, Failure, ThinBytes, Uints};

/// The header of profile 2, all of whose numbers are 0.
pub const HEADER: Header = Header {
    profile: Profile::Two,
    round: 0,
    latest_timestamp: 0,
    min_fee: 0,
    min_balance: 0,
    max_life: 0,
};

const NOBODY: Address = Address([0; 32]);

const NO_ENTRY: Schema = Schema { uints: 0, bytes: 0 };

/// The completion of a name.
pub fn completion(word: &str) -> Result<Completion, Fail> {
    match word {
        "NoOp" => Ok(Completion::NoOp),
        "OptIn" => Ok(Completion::OptIn),
        "CloseOut" => Ok(Completion::CloseOut),
        "ClearState" => Ok(Completion::ClearState),
        "UpdateApplication" => Ok(Completion::UpdateApplication),
        "DeleteApplication" => Ok(Completion::DeleteApplication),
        _ => Err("there is no such completion".into()),
    }
}

/// The lists of a call.
#[derive(Drop)]
struct Lists {
    arguments: Vec<ByteString>,
    accounts: Vec<Address>,
    applications: Vec<u64>,
}

/// A call by the zero address that brings no program and no list.
fn plain(alloc: Global) -> CallData {
    CallData {
        sender: NOBODY,
        fee: 0,
        first_valid: 0,
        last_valid: 0,
        note: ByteString::new(),
        lease: [0; 32],
        rekey_to: NOBODY,
        application: 0,
        completion: Completion::NoOp,
        arguments: ByteStrings::from_vec(Vec::new(alloc)),
        accounts: Addresses::from_vec(Vec::new(alloc)),
        foreign_applications: Uints::from_vec(Vec::new(alloc)),
        approval: ThinBytes::new(),
        clear: ThinBytes::new(),
        global_schema: NO_ENTRY,
        local_schema: NO_ENTRY,
    }
}

/// The fields of a call: `ID COMPLETION APPROVAL CLEAR UINTS BYTES ARGUMENT`, of which the last ones may be left out, with the
/// schema of the global state; and anywhere between them `sender=ACCOUNT`, `arg=BYTES`, `account=ACCOUNT`, `foreign=ID`,
/// `note=BYTES`, `fee=NUMBER`, `first=NUMBER`, `last=NUMBER` and `local=UINTS`, which has the local states' schema.
pub fn fields(alloc: Global, programs: &Programs, words: &[&str]) -> Result<CallData, Fail> {
    let mut fields = plain(alloc);
    let mut lists = Lists {
        arguments: Vec::new(alloc),
        accounts: Vec::new(alloc),
        applications: Vec::new(alloc),
    };
    set_all(alloc, programs, &mut fields, &mut lists, words)?;
    let Lists {
        arguments,
        accounts,
        applications,
    } = lists;
    fields.arguments = ByteStrings::from_vec(arguments);
    fields.accounts = Addresses::from_vec(accounts);
    fields.foreign_applications = Uints::from_vec(applications);
    Ok(fields)
}

/// Sets each field of the words, by its name or else by its place.
fn set_all(
    alloc: Global,
    programs: &Programs,
    fields: &mut CallData,
    lists: &mut Lists,
    words: &[&str],
) -> Result<(), Fail> {
    let mut place = 0usize;
    for word in words {
        match word.split_once('=') {
            Some((name, value)) => set(alloc, fields, lists, name, value)?,
            None if place > 5 => add_argument(alloc, lists, word)?,
            None => {
                set_at(alloc, programs, fields, place, word)?;
                place = place.saturating_add(1);
            }
        }
    }
    Ok(())
}

fn add_argument(alloc: Global, lists: &mut Lists, word: &str) -> Result<(), Fail> {
    let argument = ByteString::from_vec(bytes(alloc, word)?);
    lists.arguments.push(argument)?;
    Ok(())
}

/// Sets the field of a place among those without a name.
fn set_at(
    alloc: Global,
    programs: &Programs,
    fields: &mut CallData,
    place: usize,
    word: &str,
) -> Result<(), Fail> {
    match place {
        0 => fields.application = word.parse::<u64>()?,
        1 => fields.completion = completion(word)?,
        2 => fields.approval = ThinBytes::from_bytes(alloc, programs.named(alloc, word)?)?,
        3 => fields.clear = ThinBytes::from_bytes(alloc, programs.named(alloc, word)?)?,
        4 => fields.global_schema.uints = word.parse::<u8>()?,
        _ => fields.global_schema.bytes = word.parse::<u8>()?,
    }
    Ok(())
}

/// Sets the field of a name, or adds to the list of it.
fn set(
    alloc: Global,
    fields: &mut CallData,
    lists: &mut Lists,
    name: &str,
    value: &str,
) -> Result<(), Fail> {
    match name {
        "sender" => fields.sender = account(value)?,
        "note" => fields.note = ByteString::from_vec(bytes(alloc, value)?),
        "local" => fields.local_schema.uints = value.parse::<u8>()?,
        "arg" => return add_argument(alloc, lists, value),
        "account" => lists.accounts.push(account(value)?)?,
        _ => return set_number(fields, lists, name, value.parse::<u64>()?),
    }
    Ok(())
}

/// Sets the number of a name, or adds it to the foreign applications.
fn set_number(
    fields: &mut CallData,
    lists: &mut Lists,
    name: &str,
    number: u64,
) -> Result<(), Fail> {
    match name {
        "fee" => fields.fee = number,
        "first" => fields.first_valid = number,
        "last" => fields.last_valid = number,
        "foreign" => lists.applications.push(number)?,
        _ => return Err("there is no such field".into()),
    }
    Ok(())
}

/// The call of these words, or the first rule that it breaks.
pub fn call_or_fault(
    alloc: Global,
    programs: &Programs,
    words: &[&str],
) -> Result<Result<Call, CallFault>, Fail> {
    match Call::check(alloc, fields(alloc, programs, words)?) {
        Ok(call) => Ok(Ok(call)),
        Err((Failure::Fault(fault), _)) => Ok(Err(fault)),
        Err((Failure::Memory, _)) => Err("memory is refused".into()),
    }
}

/// The call of these words.
pub fn call(alloc: Global, programs: &Programs, words: &[&str]) -> Result<Call, Fail> {
    match call_or_fault(alloc, programs, words)? {
        Ok(call) => Ok(call),
        Err(_) => Err("these fields make a call".into()),
    }
}
