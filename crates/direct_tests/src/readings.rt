//! A call and a ledger that are read from bytes, and what their readers then give.

use crate::data::{bytes_of, ledger_of, programs};
use avm_call_codec::{CallCodec, CallDataFault};
use avm_items::CallData;
use avm_ledger::Ledger;
use avm_states::{Schema, SharedState};
use std::alloc::Global;
use std::test::Fail;
use teal_value::{Address, Failure, StateKey, Value};

const ZERO_ADDRESS: Address = Address([0; 32]);

/// Three bytes before a call of application 5, of 187 bytes, and one behind it.
const LONGER: &str =
    "070707 @0 #0 #0 #0 000161 @0 @0 #5 02 01 0002 0708 01 @0 01 #9 0000 0000 00000000 09";

/// Places, and the application of the call there with the place behind it, or none where it is truncated.
const PLACES: [(&str, usize, Option<(u64, usize)>); 2] = [
    ("before the call", 3, Some((5, 190))),
    ("behind the end", 192, None),
];

fn front(alloc: Global, bytes: &[u8], place: usize) -> Result<Option<(u64, usize)>, Fail> {
    match CallData::front(alloc, bytes, place) {
        Ok((call, next)) => Ok(Some((call.application, next))),
        Err(Failure::Fault(CallDataFault::Truncated)) => Ok(None),
        Err(_) => Err("a call is read, or truncated".into()),
    }
}

#[test]
fn a_call_is_read_in_longer_bytes(rt: HostRuntime) -> Result<(), Fail> {
    let alloc = rt.alloc();
    let bytes = bytes_of(alloc, &programs(alloc)?, LONGER)?;
    for (name, place, found) in PLACES {
        assert!(rt; front(alloc, bytes.as_slice(), place)? == found, "{name}");
    }
    Ok(())
}

/// Application 1 with room for a byte string in local states, 7 under `a` and a byte under `b`; the zero address has no bytes
/// under `k`.
const WITH_STATES: &str =
    "#2 00000001 #1 @0 :approves :approves 01010001 02 0161 01 #7 0162 020178 00000001 @0 #1 01 016b 0200";

/// Whether application 1 has room for one byte string in local states, and 7 under `a`.
fn has_row(ledger: &Ledger) -> bool {
    let uint = match StateKey::of(b"a") {
        Some(key) => matches!(ledger.global_value(1, &key), Some(Value::Uint(7))),
        None => false,
    };
    match ledger.application(1) {
        Some(row) => uint && row.get().local_schema == Schema { uints: 0, bytes: 1 },
        None => false,
    }
}

/// Whether a state has one byte string alone.
fn has_one(state: Option<&SharedState>) -> bool {
    match state {
        Some(state) => {
            let counts = state.get().counts();
            counts.uints() == 0 && counts.bytes() == 1
        }
        None => false,
    }
}

#[test]
fn a_ledger_that_is_read_has_its_states(rt: HostRuntime) -> Result<(), Fail> {
    let alloc = rt.alloc();
    let ledger = ledger_of(alloc, &programs(alloc)?, WITH_STATES)?;
    assert!(rt;
        ledger.next_id() == 2 && ledger.application_count() == 1 && ledger.local_state_count() == 1
    );
    assert!(rt; has_row(&ledger));
    assert!(rt; has_one(ledger.local_state(&ZERO_ADDRESS, 1)));
    Ok(())
}
