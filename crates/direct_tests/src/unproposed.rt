//! Calls of which nothing is proposed.

use crate::data::{NOTHING, calls_of, ledger_of, programs};
use crate::script::Script;
use crate::sets::filled_ops;
use avm_ledger::{Header, Profile};
use avm_ops::{BoxedOp, Ops};
use avm_pool::{Draft, PoolFault, ThreadSets, propose};
use sample_calls::calls::HEADER;
use std::alloc::Global;
use std::sync::Wait;
use std::test::Fail;
use std::thread::Threads;
use teal_value::Failure;

/// How many workers there are, how many of them, from the first, have a set with objects, and whether their caller has.
#[derive(Clone, Copy)]
struct Crew {
    workers: u64,
    filled: u64,
    own: bool,
}

const NOBODY: Crew = Crew {
    workers: 0,
    filled: 0,
    own: true,
};

const NINE: Crew = Crew {
    workers: 9,
    filled: 9,
    own: true,
};

const ONE_LACKS: Crew = Crew {
    workers: 2,
    filled: 1,
    own: true,
};

const CALLER_LACKS: Crew = Crew {
    workers: 2,
    filled: 2,
    own: false,
};

const TWO: Crew = Crew {
    workers: 2,
    filled: 2,
    own: true,
};

/// The second of two calls has programs of version 3. The opcode `err` has the least code, 0.
const CALLS: [&str; 2] = ["0 NoOp approves approves", "0 NoOp asserts asserts"];

/// A name, who runs the calls, the header's profile, and why nothing is proposed.
const REFUSALS: [(&str, Crew, Profile, PoolFault); 6] = [
    ("no worker", NOBODY, Profile::Three, PoolFault::Workers),
    ("nine workers", NINE, Profile::Two, PoolFault::Workers),
    (
        "a worker's set lacks objects",
        ONE_LACKS,
        Profile::Three,
        PoolFault::OpMissing(0),
    ),
    (
        "the caller's set lacks objects",
        CALLER_LACKS,
        Profile::Three,
        PoolFault::OpMissing(0),
    ),
    (
        "objects are asked for first",
        ONE_LACKS,
        Profile::Two,
        PoolFault::OpMissing(0),
    ),
    (
        "a call needs a newer profile",
        TWO,
        Profile::Two,
        PoolFault::Profile { number: 2 },
    ),
];

fn set_of(alloc: Global, is_filled: bool) -> Result<Ops<BoxedOp>, Fail> {
    if is_filled {
        filled_ops(alloc)
    } else {
        Ok(Ops::new(alloc)?)
    }
}

fn sets_of(alloc: Global, crew: Crew) -> Result<ThreadSets<BoxedOp>, Fail> {
    let mut workers = Vec::new(alloc);
    for number in 0..crew.workers {
        workers.push(set_of(alloc, number < crew.filled)?)?;
    }
    Ok(ThreadSets {
        workers,
        own: set_of(alloc, crew.own)?,
    })
}

/// Why the calls are not proposed, if they are not.
fn refusal<R: Threads + Wait + Sync>(
    rt: &R,
    alloc: Global,
    crew: Crew,
    profile: Profile,
) -> Result<Option<PoolFault>, Fail> {
    let programs = programs(alloc)?;
    let base = ledger_of(alloc, &programs, NOTHING)?;
    let draft = Draft {
        base: &base,
        header: Header { profile, ..HEADER },
        calls: calls_of(alloc, &programs, &CALLS, 1)?,
    };
    let gate = Script::new(alloc, &[], 2)?;
    match propose(rt, alloc, draft, sets_of(alloc, crew)?, &gate) {
        Ok(_proposal) => Ok(None),
        Err(Failure::Fault(fault)) => Ok(Some(fault)),
        Err(Failure::Memory) => Err("memory is refused".into()),
    }
}

#[test]
fn refusals(rt: HostRuntime) -> Result<(), Fail> {
    let alloc = rt.alloc();
    for (name, crew, profile, fault) in REFUSALS {
        let found = refusal(&rt, alloc, crew, profile)?;
        assert!(rt; found == Some(fault), "{name}");
    }
    Ok(())
}
