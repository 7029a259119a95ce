//! Ledgers that are made, changed and read back.

use avm_items::{Item, ItemMap, ItemValue, item_of, put_open};
use avm_ledger::{Application, IdsEnd, Ledger, OpenLedger};
use avm_states::{EntryCounts, Schema, SharedState, State};
use std::alloc::Global;
use std::test::Fail;
use teal_check::{Program, check};
use teal_value::{Address, ByteString, Failure, StateKey, Value};

const ONE_UINT: Schema = Schema { uints: 1, bytes: 0 };

const NO_ENTRY: Schema = Schema { uints: 0, bytes: 0 };

const ZERO_ADDRESS: Address = Address([0; 32]);

/// The program `int 1`.
const PROGRAM: &[u8] = &[2, 32, 1, 1, 34];

fn program(alloc: Global) -> Result<Program, Fail> {
    Ok(check(alloc, PROGRAM)?)
}

fn key(text: &str) -> Result<StateKey, Fail> {
    match StateKey::of(text.as_bytes()) {
        Some(key) => Ok(key),
        None => Err("a key is at most 64 bytes".into()),
    }
}

/// The zero address makes an application, which takes this id.
fn creation(alloc: Global, ledger: &mut Ledger, schema: Schema) -> Result<u64, Fail> {
    let program = program(alloc)?;
    Ok(ledger.create(alloc, ZERO_ADDRESS, &program, &program, schema, NO_ENTRY)?)
}

/// The ledger with one application, made by the zero address.
fn one_application(alloc: Global) -> Result<Ledger, Fail> {
    let mut ledger = Ledger::new(alloc);
    let _id = creation(alloc, &mut ledger, ONE_UINT)?;
    Ok(ledger)
}

/// Whether an application is the first, as it was made.
fn is_first(row: &Application) -> bool {
    row.creator == ZERO_ADDRESS
        && row.approval.as_slice() == PROGRAM
        && row.clear.as_slice() == PROGRAM
        && row.global_schema == ONE_UINT
        && row.local_schema == NO_ENTRY
}

/// Whether application 1 stands as it was made, without entries, and nobody is in.
fn has_first(ledger: &Ledger) -> bool {
    match (ledger.application(1), ledger.global_state(1)) {
        (Some(row), Some(state)) => {
            is_first(row.get())
                && state.len() == 0
                && ledger.local_state(&ZERO_ADDRESS, 1).is_none()
        }
        _ => false,
    }
}

#[test]
fn creations_take_the_next_ids(rt: HostRuntime) -> Result<(), Fail> {
    let alloc = rt.alloc();
    let mut ledger = one_application(alloc)?;
    assert!(rt; ledger.next_id() == 2);
    assert!(rt; creation(alloc, &mut ledger, NO_ENTRY)? == 2);
    assert!(rt; ledger.next_id() == 3 && ledger.application(3).is_none());
    assert!(rt; has_first(&ledger));
    Ok(())
}

/// A ledger without applications, of this next id.
fn ledger_before(alloc: Global, id: u64) -> Ledger {
    let mut ledger = Ledger::new(alloc).open();
    ledger.set_next_id(id);
    ledger.close()
}

/// Whether a creation where the next id is the last number is refused.
fn ids_end(alloc: Global) -> Result<bool, Fail> {
    let program = program(alloc)?;
    let mut ledger = ledger_before(alloc, u64::MAX);
    let refused = ledger.create(alloc, ZERO_ADDRESS, &program, &program, NO_ENTRY, NO_ENTRY);
    Ok(refused == Err(Failure::Fault(IdsEnd::IdsEnd)))
}

#[test]
fn the_last_number_is_no_id(rt: HostRuntime) -> Result<(), Fail> {
    let alloc = rt.alloc();
    assert!(rt; ids_end(alloc)?);
    let mut ledger = ledger_before(alloc, u64::MAX - 1);
    assert!(rt; creation(alloc, &mut ledger, NO_ENTRY)? == u64::MAX - 1);
    assert!(rt; ledger.next_id() == u64::MAX);
    Ok(())
}

fn has_counts(state: &State, uints: usize, bytes: usize) -> bool {
    let counts = state.counts();
    counts.uints() == uints && counts.bytes() == bytes
}

#[test]
fn a_state_takes_more_entries_than_a_schema_allows(rt: HostRuntime) -> Result<(), Fail> {
    let mut state = State::new(rt.alloc());
    for number in 0..1000u16 {
        match StateKey::of(&number.to_be_bytes()) {
            Some(key) => state.insert(key, Value::Uint(u64::from(number)))?,
            None => return Err("two bytes are a key".into()),
        };
    }
    assert!(rt; state.len() == 1000 && has_counts(&state, 1000, 0));
    Ok(())
}

fn uint_in(state: &State, key: &StateKey) -> Option<u64> {
    match state.get(key) {
        Some(Value::Uint(number)) => Some(*number),
        _ => None,
    }
}

/// What is done with a key.
#[derive(Clone, Copy)]
enum Change {
    Uint(u64),
    Bytes(&'static [u8]),
    Gone,
}

/// Changes of keys of application 1, one after another, each with the uint that `n` has then, and with how many uints and
/// how many byte strings there are.
const CHANGES: [(&str, Change, Option<u64>, usize, usize); 4] = [
    ("n", Change::Uint(7), Some(7), 1, 0),
    ("m", Change::Bytes(b"seven"), Some(7), 1, 1),
    ("m", Change::Uint(8), Some(7), 2, 0),
    ("n", Change::Gone, None, 1, 0),
];

fn make(alloc: Global, ledger: &mut OpenLedger, name: &str, change: Change) -> Result<(), Fail> {
    match change {
        Change::Uint(number) => {
            let _old = ledger.set_key(1, key(name)?, Value::Uint(number))?;
        }
        Change::Bytes(bytes) => {
            let value = Value::Bytes(ByteString::from_slice(alloc, bytes)?);
            let _old = ledger.set_key(1, key(name)?, value)?;
        }
        Change::Gone => {
            let _old = ledger.remove_key(1, &key(name)?);
        }
    }
    Ok(())
}

/// Whether the state of application 1 has this uint under a key, and so many entries of each kind.
fn has_state(
    ledger: &OpenLedger,
    name: &str,
    number: Option<u64>,
    uints: usize,
    bytes: usize,
) -> Result<bool, Fail> {
    let key = key(name)?;
    match ledger.global_state(1) {
        Some(state) => Ok(uint_in(state, &key) == number && has_counts(state, uints, bytes)),
        None => Ok(false),
    }
}

#[test]
fn keys_are_counted_by_kind(rt: HostRuntime) -> Result<(), Fail> {
    let alloc = rt.alloc();
    let mut ledger = one_application(alloc)?.open();
    for (name, done, number, uints, bytes) in CHANGES {
        make(alloc, &mut ledger, name, done)?;
        assert!(rt;
            has_state(&ledger, "n", number, uints, bytes)?,
            "{name}, with {uints} uints and {bytes} byte strings"
        );
    }
    Ok(())
}

/// `a` is 1 and `n` gone, the zero address in, and 5 the next id.
fn some_items(alloc: Global) -> Result<ItemMap, Fail> {
    let mut items = ItemMap::new(alloc);
    items.insert(Item::Key(1, key("a")?), ItemValue::Key(Value::Uint(1)))?;
    items.insert(Item::Key(1, key("n")?), ItemValue::Absent)?;
    let state = ItemValue::Local(SharedState::new(alloc, State::new(alloc))?);
    items.insert(Item::Local(ZERO_ADDRESS, 1), state)?;
    items.insert(Item::NextApp, ItemValue::NextApp(5))?;
    Ok(items)
}

/// Application 1 with 7 under `n`, and then those items.
fn with_items(alloc: Global) -> Result<OpenLedger, Fail> {
    let mut ledger = one_application(alloc)?.open();
    make(alloc, &mut ledger, "n", Change::Uint(7))?;
    put_open(alloc, &mut ledger, some_items(alloc)?)?;
    Ok(ledger)
}

#[test]
fn items_are_put_and_taken_out(rt: HostRuntime) -> Result<(), Fail> {
    let mut ledger = with_items(rt.alloc())?;
    assert!(rt; has_state(&ledger, "a", Some(1), 1, 0)?);
    assert!(rt; has_state(&ledger, "n", None, 1, 0)?);
    assert!(rt; ledger.next_id() == 5 && ledger.local_state(&ZERO_ADDRESS, 1).is_some());
    assert!(rt; ledger.remove_application(1).is_some() && ledger.global_state(1).is_none());
    Ok(())
}

fn has_item(ledger: &Ledger, item: &Item, value: &ItemValue) -> Result<bool, Fail> {
    Ok(item_of(ledger, item)?.is_same(value))
}

/// Whether a ledger has the first application, no second, and no entries of the first.
fn has_one(ledger: &Ledger, first: &ItemValue) -> Result<bool, Fail> {
    let none = ItemValue::Counts(EntryCounts::none());
    Ok(
        ledger.next_id() == 2
            && has_item(ledger, &Item::App(1), first)?
            && has_item(ledger, &Item::App(2), &ItemValue::Absent)?
            && has_item(ledger, &Item::Counts(1), &none)?,
    )
}

/// A copy is its source, and stays when the source changes.
#[test]
fn copies_stay(rt: HostRuntime) -> Result<(), Fail> {
    let alloc = rt.alloc();
    let mut ledger = one_application(alloc)?;
    let copy = ledger.clone()?;
    assert!(rt; creation(alloc, &mut ledger, NO_ENTRY)? == 2);
    assert!(rt; ledger.next_id() == 3);
    assert!(rt; has_one(&copy, &item_of(&ledger, &Item::App(1))?)?);
    Ok(())
}
