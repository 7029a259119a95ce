//! Cases of calls that workers run into a block.

use crate::data::{
    COUNTS, COUNTS_TO_65, EARLY, EARLY_AFTER, EARLY_CALLS, NOTHING, SKEW, SKEW_AT_3, SKEW_CALLS,
    SKEW_OTHERWISE, TWO,
};
use crate::script::Hold;
use avm_ledger::Profile;
use avm_pool::GateEvent;

/// The block of no call over the ledger without applications, with a header of zeros, of 145 bytes, and that of profile 3.
const EMPTY_BLOCK: &str =
    "41564d4201783825822a6f9e62da2190e828e4c9d2576e5977e3a0b3620b092dfb9e9996fa0000000000000000000000000000000000000000000000000000000000000000000000000000000000000000783825822a6f9e62da2190e828e4c9d2576e5977e3a0b3620b092dfb9e9996faa1022f3ae0e1870bd301afa675d4580d7a6ae6af03a5d88ca601b223c592a3d5";

const EMPTY_BLOCK_3: &str =
    "41564d420203783825822a6f9e62da2190e828e4c9d2576e5977e3a0b3620b092dfb9e9996fa0000000000000000000000000000000000000000000000000000000000000000000000000000000000000000783825822a6f9e62da2190e828e4c9d2576e5977e3a0b3620b092dfb9e9996fa88752d2feaf571719c6d2641851b71531c03196281676bff9d8040ff8a960177";

const ONE_CALL: [&str; 1] = ["1 sender=X account=X foreign=1"];

const NO_CALLS: [&str; 0] = [];

/// A call of each of two applications.
const EACH: [&str; 2] = [
    "1 sender=X account=X foreign=1",
    "2 sender=Y account=X foreign=1",
];

const NO_HOLDS: [Hold; 0] = [];

/// Both calls have read before either is committed, and a second attempt begins once the other call is committed.
const OVERLAP: [Hold; 4] = [
    Hold {
        number: 1,
        attempt: 1,
        event: GateEvent::BeforeCommit,
        other: 2,
        until: GateEvent::BeforeCommit,
    },
    Hold {
        number: 2,
        attempt: 1,
        event: GateEvent::BeforeCommit,
        other: 1,
        until: GateEvent::BeforeCommit,
    },
    Hold {
        number: 1,
        attempt: 2,
        event: GateEvent::Begun,
        other: 2,
        until: GateEvent::Committed,
    },
    Hold {
        number: 2,
        attempt: 2,
        event: GateEvent::Begun,
        other: 1,
        until: GateEvent::Committed,
    },
];

/// Call 1 is inside the shard of application 1 until call 2, which needs another, is committed.
const INSIDE: [Hold; 2] = [
    Hold {
        number: 2,
        attempt: 1,
        event: GateEvent::Begun,
        other: 1,
        until: GateEvent::Inside(1),
    },
    Hold {
        number: 1,
        attempt: 1,
        event: GateEvent::Inside(1),
        other: 2,
        until: GateEvent::Committed,
    },
];

/// Calls 1 to 4 each stay at another event until call 5 is committed.
const NO_LOCK: [Hold; 4] = [
    Hold {
        number: 1,
        attempt: 1,
        event: GateEvent::Begun,
        other: 5,
        until: GateEvent::Committed,
    },
    Hold {
        number: 2,
        attempt: 1,
        event: GateEvent::Read,
        other: 5,
        until: GateEvent::Committed,
    },
    Hold {
        number: 3,
        attempt: 1,
        event: GateEvent::BeforeCommit,
        other: 5,
        until: GateEvent::Committed,
    },
    Hold {
        number: 4,
        attempt: 1,
        event: GateEvent::Committed,
        other: 5,
        until: GateEvent::Committed,
    },
];

/// Calls, the gate, and what comes out.
#[derive(Clone, Copy)]
pub struct Case {
    pub name: &'static str,
    pub base: &'static str,
    pub profile: Profile,
    pub calls: &'static [&'static str],
    /// The calls are made so often.
    pub times: usize,
    pub workers: usize,
    pub holds: &'static [Hold],
    /// Whether no call needs a second attempt.
    pub first: bool,
    /// The block's timestamps, or none where any will do.
    pub timestamps: &'static [u64],
    /// The ledger after the block is one of these.
    pub after: [&'static str; 2],
    /// The block, or nothing where any will do.
    pub block: &'static str,
}

const CASE: Case = Case {
    name: "",
    base: NOTHING,
    profile: Profile::Two,
    calls: &NO_CALLS,
    times: 1,
    workers: 1,
    holds: &NO_HOLDS,
    first: false,
    timestamps: &[],
    after: [NOTHING; 2],
    block: "",
};

pub const CASES: [Case; 9] = [
    Case {
        name: "no call",
        first: true,
        block: EMPTY_BLOCK,
        ..CASE
    },
    Case {
        name: "no call, profile 3",
        profile: Profile::Three,
        workers: 8,
        first: true,
        block: EMPTY_BLOCK_3,
        ..CASE
    },
    Case {
        name: "64 calls that count",
        base: COUNTS,
        calls: &ONE_CALL,
        times: 64,
        workers: 4,
        after: [COUNTS_TO_65; 2],
        ..CASE
    },
    Case {
        name: "64 calls that read one application, and nothing that is written",
        base: TWO,
        calls: &ONE_CALL,
        times: 64,
        workers: 4,
        first: true,
        after: [TWO; 2],
        ..CASE
    },
    Case {
        name: "a call of what a call creates",
        base: EARLY,
        calls: &EARLY_CALLS,
        workers: 2,
        after: [EARLY_AFTER; 2],
        ..CASE
    },
    Case {
        name: "a call of what a call creates, by one worker",
        base: EARLY,
        calls: &EARLY_CALLS,
        first: true,
        timestamps: &[1, 2],
        after: [EARLY_AFTER; 2],
        ..CASE
    },
    Case {
        name: "a write skew: the call with the smaller timestamp is late, and made again",
        base: SKEW,
        calls: &SKEW_CALLS,
        workers: 2,
        holds: &OVERLAP,
        timestamps: &[2, 3],
        after: [SKEW_AT_3, SKEW_OTHERWISE],
        ..CASE
    },
    Case {
        name: "a commit while another shard is locked",
        base: TWO,
        calls: &EACH,
        workers: 2,
        holds: &INSIDE,
        first: true,
        after: [TWO; 2],
        ..CASE
    },
    Case {
        name: "a commit while others that need the same lock stay at their events",
        base: TWO,
        calls: &ONE_CALL,
        times: 5,
        workers: 5,
        holds: &NO_LOCK,
        first: true,
        after: [TWO; 2],
        ..CASE
    },
];
