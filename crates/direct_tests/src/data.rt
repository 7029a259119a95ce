//! The programs, ledgers and calls of the tests, by the words of `sample_calls`. What each list comes to is worked out by hand from
//! the rules of timestamp ordering and the AVM specification.

use crate::random::Random;
use avm_call::Call;
use avm_ledger::Ledger;
use sample_calls::calls::call;
use sample_calls::programs::Programs;
use sample_calls::words::joined;
use std::alloc::Global;
use std::test::Fail;

/// Programs: the name, the source and the bytes.
///
/// By the number of its arguments, `main` with 1 puts the number under `v` of the call's further account, and 1, under `v` of the
/// sender; else it adds 1 to the number under `n` of the global state, and with 2 rejects, with 3 errs. `adds` adds the number
/// under `n` of the call's foreign application, and 1, to its own. `skew` does what `main` does with 1 argument.
const PROGRAMS: [(&str, &str, &str); 8] = [
    ("approves", "#pragma version 2\nint 1", "0220010122"),
    ("errs", "#pragma version 2\nerr", "0200"),
    (
        "counts",
        "#pragma version 2\nbyte \"n\"\nbyte \"n\"\napp_global_get\nint 1\n+\napp_global_put\nint 1",
        "022001012601016e28286422086722",
    ),
    (
        "main",
        "#pragma version 2\nintcblock 0 1 2 3\nbytecblock 0x6e 0x76\ntxn NumAppArgs\nintc_1\n==\nbnz local\nbytec_0\nbytec_0\napp_global_get\nintc_1\n+\napp_global_put\ntxn NumAppArgs\nintc_2\n==\nbnz reject\ntxn NumAppArgs\nintc_3\n==\nbnz fault\nintc_1\nreturn\nreject:\nintc_0\nreturn\nfault:\nerr\nlocal:\nintc_0\nbytec_1\nintc_1\nbytec_1\napp_local_get\nintc_1\n+\napp_local_put\nintc_1",
        "022004000102032602016e0176311b2312400019282864230867311b2412400009311b25124000042343224300222923296223086623",
    ),
    (
        "adds",
        "#pragma version 2\nbyte \"n\"\nint 1\nbyte \"n\"\napp_global_get_ex\npop\nbyte \"n\"\napp_global_get\n+\nint 1\n+\napp_global_put\nint 1",
        "022001012601016e282228654828640822086722",
    ),
    (
        "skew",
        "#pragma version 2\nint 0\nbyte \"v\"\nint 1\nbyte \"v\"\napp_local_get\nint 1\n+\napp_local_put\nint 1",
        "022002000126010176222823286223086623",
    ),
    (
        "looks",
        "#pragma version 2\nint 1\nbyte \"k\"\napp_global_get_ex",
        "022001012601016b222865",
    ),
    (
        "asserts",
        "#pragma version 3\nint 1\nassert\nint 1",
        "03200101224422",
    ),
];

/// The ledger without applications.
pub const NOTHING: &str = "#1 00000000 00000000";

/// Applications 1 and 2, whose programs are `int 1`.
pub const TWO: &str =
    "#3 00000002 #1 @0 :approves :approves 00000000 00 #2 @0 :approves :approves 00000000 00 00000000";

/// Application 1 counts; its number is 1, or 65.
pub const COUNTS: &str = "#2 00000001 #1 @0 :counts :counts 01000000 01 016e01 #1 00000000";

pub const COUNTS_TO_65: &str = "#2 00000001 #1 @0 :counts :counts 01000000 01 016e01 #65 00000000";

/// X and Y are in an application that puts each one's number into the other's state.
pub const SKEW: &str = "#2 00000001 #1 @0 :skew :approves 00000100 00 00000002 @X #1 00 @Y #1 00";

/// Under `v`, X has 2 and Y has 1.
pub const SKEW_AT_3: &str =
    "#2 00000001 #1 @0 :skew :approves 00000100 00 00000002 @X #1 01 017601 #2 @Y #1 01 017601 #1";

/// Under `v`, X has 1 and Y has 2.
pub const SKEW_OTHERWISE: &str =
    "#2 00000001 #1 @0 :skew :approves 00000100 00 00000002 @X #1 01 017601 #1 @Y #1 01 017601 #2";

/// Application 1 reads the number under `k` of the call's foreign application.
pub const EARLY: &str = "#2 00000001 #1 @0 :looks :approves 00000000 00 00000000";

/// Application 2 stands, whose programs are `int 1`.
pub const EARLY_AFTER: &str =
    "#3 00000002 #1 @0 :looks :approves 00000000 00 #2 @X :approves :approves 00000000 00 00000000";

/// Application 1 has `main`, and counts when it is cleared; application 2 has `adds`, and errs when it is cleared. X is in both,
/// and Y in application 1. Each state has room for one uint.
pub const BASE: &str =
    "#3 00000002 #1 @0 :main :counts 01000100 00 #2 @0 :adds :errs 01000100 00 00000003 @X #1 00 @X #2 00 @Y #1 00";

/// Each of two accounts reads the other's state and writes its own.
pub const SKEW_CALLS: [&str; 2] = [
    "1 sender=X account=Y foreign=1",
    "1 sender=Y account=X foreign=1",
];

/// The creation of application 2, and a call that asks for it.
pub const EARLY_CALLS: [&str; 2] = [
    "0 NoOp approves approves sender=X account=Y foreign=1",
    "1 sender=Y account=X foreign=2",
];

/// What the calls of a list are drawn from: calls that count, that write what they read of one another's states, that
/// reject or err, creations with and without room for what they put, and calls of each other completion.
pub const CALLS: [&str; 20] = [
    "1 sender=X account=X foreign=1",
    "1 sender=Y account=X foreign=1",
    "1 sender=X arg=- account=Y foreign=1",
    "1 sender=Y arg=- account=X foreign=1",
    "1 sender=Z arg=- account=X foreign=1",
    "1 sender=X arg=- arg=- account=X foreign=1",
    "1 sender=Y arg=- arg=- arg=- account=X foreign=1",
    "2 sender=X account=X foreign=1",
    "2 sender=Y account=X foreign=3",
    "3 sender=X account=X foreign=1",
    "0 NoOp main main 1 0 local=1 sender=Z account=X foreign=1",
    "0 NoOp main main sender=X account=X foreign=1",
    "1 OptIn sender=Z account=X foreign=1",
    "3 OptIn sender=Z account=X foreign=1",
    "1 ClearState sender=X account=X foreign=1",
    "2 ClearState sender=X account=X foreign=1",
    "1 CloseOut sender=Y account=X foreign=1",
    "1 DeleteApplication sender=X account=X foreign=1",
    "2 DeleteApplication sender=Y account=X foreign=1",
    "2 UpdateApplication main main sender=Z account=X foreign=1",
];

/// The programs, by their names.
pub fn programs(alloc: Global) -> Result<Programs, Fail> {
    let mut programs = Programs::new(alloc);
    for (name, source, digits) in PROGRAMS {
        let told = programs.assemble(alloc, name, source.as_bytes())?;
        if told.as_str() != digits {
            return Err(name.into());
        }
    }
    Ok(programs)
}

/// Bytes in pieces, some of which are words of a text.
pub fn bytes_of(alloc: Global, programs: &Programs, pieces: &str) -> Result<Vec<u8>, Fail> {
    let words: Vec<&str> = pieces.split_whitespace().collect(alloc)?;
    joined(alloc, programs, words.as_slice())
}

/// The ledger of these pieces.
pub fn ledger_of(alloc: Global, programs: &Programs, pieces: &str) -> Result<Ledger, Fail> {
    match Ledger::read(alloc, bytes_of(alloc, programs, pieces)?.as_slice()) {
        Ok(ledger) => Ok(ledger),
        Err(_) => Err("these bytes are a ledger".into()),
    }
}

/// The calls of these words, all of them so many times.
pub fn calls_of(
    alloc: Global,
    programs: &Programs,
    rows: &[&str],
    times: usize,
) -> Result<Vec<Call>, Fail> {
    let mut calls = Vec::new(alloc);
    for _time in 0..times {
        for row in rows {
            let words: Vec<&str> = row.split_whitespace().collect(alloc)?;
            calls.push(call(alloc, programs, words.as_slice())?)?;
        }
    }
    Ok(calls)
}

/// So many calls, each drawn from these.
pub fn some_calls(
    alloc: Global,
    random: &mut Random,
    all: &[Call],
    count: u64,
) -> Result<Vec<Call>, Fail> {
    let mut calls = Vec::new(alloc);
    let most = all.len() as u64;
    if most == 0 {
        return Err("calls are drawn from some".into());
    }
    for _number in 0..count {
        match all.get(random.below(most) as usize) {
            Some(call) => calls.push(call.clone()?)?,
            None => return Err("a number below the count is a place".into()),
        }
    }
    Ok(calls)
}

/// Whether numbers are each at most this one, from 1, and stand once.
pub fn stand_once(alloc: Global, numbers: &[u32], most: usize) -> Result<bool, Fail> {
    let mut seen = vec![in alloc; true]?;
    for _number in 0..most {
        seen.push(false)?;
    }
    for number in numbers {
        match seen.get_mut(*number as usize) {
            Some(flag) => {
                if *flag {
                    return Ok(false);
                }
                *flag = true;
            }
            None => return Ok(false),
        }
    }
    Ok(true)
}
