//! Items put into a ledger.

ghost use Rattle.std.specs.Prelude.{◌≡◌, ◌++◌, [], false, IfErr, IfOk, OnOk};
ghost use Rattle.avm_ledger.specs.Ledgers.{IsOrderly, Ledger as LedgerMaps};
ghost use Rattle.avm_items.specs.declared.item_value.ItemValue.TheVariants.{Absent};
ghost use Rattle.avm_items.specs.LedgerItems.{at, put, put_one};
ghost use Rattle.avm_items.specs.Putting.{AllPutBack, CanPutBack, ChangePutBack, PutsBack, absent_items, absent_one, is_absent, set_all, set_one, without_all};

use crate::item::Item;
use crate::item_map::ItemMap;
use crate::item_value::ItemValue;
use avm_ledger::{Ledger, OpenLedger};
use std::alloc::{AllocError, Global};
use std::mem;

/// Takes an item out.
fn remove(ledger: &mut OpenLedger, item: &Item)
    ensures { ledger.new ≡ put_one ledger.old item.now Absent }
{
    match item {
        Item::App(id) => {
            let _ = ledger.remove_application(*id);
        }
        Item::Key(id, key) => {
            let _ = ledger.remove_key(*id, key);
        }
        Item::Local(who, id) => {
            let _ = ledger.remove_local_state(who, *id);
        }
        Item::NextApp | Item::Counts(_) => {}
    }
}

/// Sets an item to a value that is not absent, and answers the value that it had; nothing, where the value is of another
/// kind than the item's and nothing is set.
#[inline(always)]
fn set(
    alloc: Global,
    ledger: &mut OpenLedger,
    item: &Item,
    value: ItemValue,
) -> Result<Option<ItemValue>, AllocError>
    requires { is_absent value ≡ false }
    ensures set { IfOk result (λ _. ledger.new ≡ put_one ledger.old item.now value) }
    ensures back { IfOk result (λ old. ChangePutBack ledger.new ledger.old item.now old) }
    ensures unchanged { IfErr result (λ _. ledger.new ≡ ledger.old) }
    ensures only_new { IfErr result (λ _. at ledger.old item.now ≡ Absent) }
{
    let next_id = ledger.next_id();
    match (item, value) {
        (Item::NextApp, ItemValue::NextApp(id)) => {
            ledger.set_next_id(id);
            Ok(Some(ItemValue::NextApp(next_id)))
        }
        (Item::App(id), ItemValue::App(row)) => match ledger.set_application(alloc, *id, row)? {
            Some(old) => Ok(Some(ItemValue::App(old))),
            None => Ok(Some(ItemValue::Absent)),
        },
        (Item::Key(id, key), ItemValue::Key(value)) => {
            match ledger.set_key(*id, key.copied(), value)? {
                Some(old) => Ok(Some(ItemValue::Key(old))),
                None => Ok(Some(ItemValue::Absent)),
            }
        }
        (Item::Local(who, id), ItemValue::Local(state)) => {
            match ledger.set_local_state(*who, *id, state)? {
                Some(old) => Ok(Some(ItemValue::Local(old))),
                None => Ok(Some(ItemValue::Absent)),
            }
        }
        _ => Ok(None),
    }
}

/// Puts the old value of an item back.
fn put_back(alloc: Global, ledger: &mut OpenLedger, item: &Item, old: ItemValue)
    ensures { CanPutBack ledger.old (item.now, old) → ledger.new ≡ put_one ledger.old item.now old }
{
    if let ItemValue::Absent = old {
        remove(ledger, item);
        return;
    }
    let _ = set(alloc, ledger, item, old);
}

/// Puts the old values of items back, the last one first.
fn put_all_back(alloc: Global, ledger: &mut OpenLedger, changes: Vec<(Item, ItemValue)>)
    ensures { (before : LedgerMaps)
        → AllPutBack ledger.old changes.items before → ledger.new ≡ before }
{
    let mut changes = changes;
    while let Some((item, old)) = changes.pop() {
        put_back(alloc, ledger, &item, old);
    }
}

/// Takes items out.
fn remove_all(ledger: &mut OpenLedger, items: &[Item])
    ensures { ledger.new ≡ without_all ledger.old items.now }
{
    for item in items {
        remove(ledger, item);
    }
}

/// Sets the item of an entry, or keeps it in `absent` for later if it is to be absent. The entry then has what puts the
/// ledger back.
#[inline(always)]
fn change(
    alloc: Global,
    ledger: &mut OpenLedger,
    entry: &mut (Item, ItemValue),
    absent: &mut Vec<Item>,
) -> Result<(), AllocError>
    ensures set { IfOk result (λ _. ledger.new ≡ set_one ledger.old entry.old) }
    ensures absent { IfOk result
        (λ _. absent.new.items ≡ absent.old.items ++ absent_one entry.old []) }
    ensures back { IfOk result (λ _. PutsBack ledger.new ledger.old entry.new) }
    ensures unchanged { IfErr result (λ _. ledger.new ≡ ledger.old) }
{
    let value = mem::replace(&mut entry.1, ItemValue::Absent);
    if let ItemValue::Absent = value {
        // `Absent` for `NextApp` puts nothing back.
        absent.push(mem::replace(&mut entry.0, Item::NextApp))?;
        return Ok(());
    }
    match set(alloc, ledger, &entry.0, value)? {
        Some(old) => entry.1 = old,
        None => entry.0 = Item::NextApp,
    }
    Ok(())
}

/// Sets items, and keeps those that are to be absent. The entries then have what puts the ledger back; where memory is
/// refused, only those are left that were changed.
#[inline(always)]
fn change_all(
    alloc: Global,
    ledger: &mut OpenLedger,
    entries: &mut Vec<(Item, ItemValue)>,
    absent: &mut Vec<Item>,
) -> Result<(), AllocError>
    ensures set { IfOk result (λ _. ledger.new ≡ set_all ledger.old entries.old.items) }
    ensures absent { IfOk result
        (λ _. absent.new.items ≡ absent.old.items ++ absent_items entries.old.items) }
    ensures back { IfErr result (λ _. AllPutBack ledger.new entries.new.items ledger.old) }
{
    for index in 0..entries.len() {
        if let Err(refused) = change(alloc, ledger, &mut entries[index], absent) {
            entries.truncate(index);
            return Err(refused);
        }
    }
    Ok(())
}

/// Puts items into an open ledger, without a copy of a value. Each takes logarithmic time.
///
/// First all is set that is not to be absent, since only that can want memory; then what is to be absent is taken out.
pub fn put_open(alloc: Global, ledger: &mut OpenLedger, items: ItemMap) -> Result<(), AllocError>
    ensures put { IfOk result (λ _. ledger.new ≡ put ledger.old items) }
    ensures unchanged { IfErr result (λ _. ledger.new ≡ ledger.old) }
{
    let _room = put_all(alloc, ledger, items)?;
    Ok(())
}

/// Puts items into an open ledger, and hands back the room of their list.
#[inline(always)]
fn put_all(alloc: Global, ledger: &mut OpenLedger, items: ItemMap) -> Result<ItemMap, AllocError>
    ensures put { IfOk result (λ _. ledger.new ≡ put ledger.old items) }
    ensures room { IfOk result (λ room. room ≡ []) }
    ensures unchanged { IfErr result (λ _. ledger.new ≡ ledger.old) }
{
    // The ledger's maps are in order, as its readers say.
    let _next_id = ledger.next_id();
    let mut entries = items.into_vec();
    let mut absent = Vec::new(alloc);
    if let Err(refused) = change_all(alloc, ledger, &mut entries, &mut absent) {
        put_all_back(alloc, ledger, entries);
        return Err(refused);
    }
    remove_all(ledger, absent.as_slice());
    Ok(ItemMap::in_room_of(entries))
}

/// Puts items into a ledger, as [`put_open`] does, and hands back the room of their list, with nothing in it.
///
/// What is put leaves a ledger: no application has the next id or one above it.
pub fn put_items(alloc: Global, ledger: &mut Ledger, items: ItemMap) -> Result<ItemMap, AllocError>
    requires { IsOrderly (put ledger.old items) }
    ensures put { IfOk result (λ _. ledger.new ≡ put ledger.old items) }
    ensures room { IfOk result (λ room. room ≡ []) }
    ensures unchanged { IfErr result (λ _. ledger.new ≡ ledger.old) }
{
    let mut open = mem::replace(ledger, Ledger::new(alloc)).open();
    match put_all(alloc, &mut open, items) {
        Ok(room) => {
            *ledger = open.close();
            Ok(room)
        }
        Err(refused) => {
            *ledger = open.close();
            Err(refused)
        }
    }
}

/// Puts copies of items into a ledger. Where memory is refused, the ledger is dropped.
///
/// What is put leaves a ledger: no application has the next id or one above it.
pub fn put_copies(
    alloc: Global,
    ledger: Ledger,
    items: &[(Item, ItemValue)],
) -> Result<Ledger, AllocError>
    requires { IsOrderly (put ledger items.now) }
    ensures { IfOk result (λ after. after ≡ put ledger items.now) }
{
    let mut open = ledger.open();
    for (item, value) in items {
        put_copy(alloc, &mut open, item, value)?;
    }
    Ok(open.close())
}

/// Puts a copy of an item's value into an open ledger.
fn put_copy(
    alloc: Global,
    ledger: &mut OpenLedger,
    item: &Item,
    value: &ItemValue,
) -> Result<(), AllocError>
    ensures { OnOk result (ledger.new ≡ put_one ledger.old item.now value.now) }
{
    if let ItemValue::Absent = value {
        remove(ledger, item);
        return Ok(());
    }
    set(alloc, ledger, item, value.clone()?)?;
    Ok(())
}
