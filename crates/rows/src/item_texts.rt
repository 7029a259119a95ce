//! Items, values and ledgers as words.

use crate::store_answers::Said;
use avm_items::{Item, ItemValue};
use avm_ledger::Ledger;
use mv_parts::Entry;
use std::alloc::{AllocError, Global};
use teal_value::{Address, Value};

/// The letter of an account.
fn letter(who: &Address) -> &'static str {
    match who.0[0] {
        0 => "0",
        1 => "X",
        2 => "Y",
        3 => "Z",
        _ => "other",
    }
}

/// An item, as rows have it.
pub fn item_text(alloc: Global, item: &Item) -> Result<String, AllocError> {
    match item {
        Item::NextApp => String::from_str(alloc, "next"),
        Item::App(id) => format!(in alloc; "app {id}"),
        Item::Counts(id) => format!(in alloc; "counts {id}"),
        Item::Key(id, key) => {
            let digits = hex::encode(alloc, key.as_slice())?;
            format!(in alloc; "key {id} 0x{digits}")
        }
        Item::Local(who, id) => format!(in alloc; "local {} {id}", letter(who)),
    }
}

/// A late write: its item, the version that it would follow, and that version's mark.
pub fn late_text(alloc: Global, item: &Item, version: u64, mark: u64) -> Result<Said, AllocError> {
    let item = item_text(alloc, item)?;
    Ok(Said::Text(format!(in alloc; "late: {item} version {version} mark {mark}")?))
}

/// An item's value.
pub fn value_text(alloc: Global, value: &ItemValue) -> Result<String, AllocError> {
    match value {
        ItemValue::Absent => String::from_str(alloc, "absent"),
        ItemValue::NextApp(id) => format!(in alloc; "next {id}"),
        ItemValue::App(_row) => String::from_str(alloc, "an application"),
        ItemValue::Counts(counts) => {
            format!(in alloc; "{} uints, {} byte strings", counts.uints(), counts.bytes())
        }
        ItemValue::Key(Value::Uint(number)) => format!(in alloc; "{number}"),
        ItemValue::Key(Value::Bytes(bytes)) => {
            let digits = hex::encode(alloc, bytes.as_slice())?;
            format!(in alloc; "0x{digits}")
        }
        ItemValue::Local(state) => format!(in alloc;
            "a local state of {} entries",
            state.get().len()
        ),
    }
}

/// Committed calls: the timestamp, the number and the outcome of each.
pub fn entries_text(alloc: Global, entries: &[Entry]) -> Result<String, AllocError> {
    let mut text = format!(in alloc; "{}", entries.len())?;
    for entry in entries {
        let timestamp = entry.timestamp();
        let number = entry.number();
        let outcome = entry.outcome();
        let one = format!(in alloc; "; at {timestamp} call {number} {outcome:?}")?;
        text.push_str(one.as_str())?;
    }
    Ok(text)
}

/// The bytes of a ledger.
pub fn digits_of(alloc: Global, ledger: &Ledger) -> Result<String, AllocError> {
    hex::encode(alloc, ledger.canonical(alloc)?.as_slice())
}
