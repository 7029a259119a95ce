//! Attempts of calls.

ghost use Rattle.std.specs.Prelude.{◌≡◌, ◌<◌, []};

use avm_items::ItemMap;
use std::alloc::Global;
use std::marker::Model;

/// An attempt of a call: its number, its timestamp, and what it has read. Its owner keeps what it read; that it is live
/// is the journal's to know.
#[derive(Drop)]
pub struct Attempt {
    pub(crate) number: u32,
    pub(crate) timestamp: u64,
    pub(crate) reads: ItemMap,
}

impl Model for Attempt {
    ghost use Rattle.std.specs.Prelude.{◌<◌};
    ghost use Rattle.mv_shards.specs.Attempts.{CallAttempt};

    ghost Value = { CallAttempt };

    ghost view = { λ a. record { number = a.number; timestamp = a.timestamp; reads = a.reads } };

    ghost invariant = { λ a. 0 < a.timestamp };
}

impl Attempt {
    /// An attempt that has read nothing. It takes no memory.
    pub fn new(alloc: Global, number: u32, timestamp: u64) -> Attempt
        requires { 0 < timestamp }
        ensures { result ≡ record { number = number; timestamp = timestamp; reads = [] } }
    {
        Attempt {
            number,
            timestamp,
            reads: ItemMap::new(alloc),
        }
    }

    /// The number of the call, from 1.
    pub fn number(&self) -> u32
        ensures { result ≡ self.now.number }
    {
        self.number
    }

    /// The timestamp of the attempt: the base is 0.
    pub fn timestamp(&self) -> u64
        ensures value { result ≡ self.now.timestamp }
        ensures positive { 0 < result }
    {
        self.timestamp
    }

    /// What it has read.
    pub fn reads(&self) -> &ItemMap
        ensures { result.now ≡ self.now.reads }
    {
        &self.reads
    }
}
