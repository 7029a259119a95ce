//! Shards that know what they agree with.

ghost use Rattle.std.specs.Prelude.{◌≡◌, ◌<◌, ◌↔◌, IfOk, IsErrOf, OnErr};
ghost use Rattle.teal_value.specs.declared.failure.Failure.TheVariants.{Fault};
ghost use Rattle.mv_shards.specs.declared.read_fault.ReadFault.TheVariants.{Pruned};
ghost use Rattle.mv_shards.specs.Shards.{IsReadAt};
ghost use Rattle.avm_pool.specs.Logged.{AgreesAfter};

use crate::log_prefix::LogPrefix;
use crate::naming::Naming;
use avm_items::{Item, ItemValue};
use mv_parts::every_call_keeps_agreement;
use mv_shards::{ReadError, Shard};
use std::marker::Model;

/// A shard, and the beginning of its run's log with which it agrees: up to the last commit that it took part in.
#[derive(Drop)]
pub struct LoggedShard<J: Naming> {
    shard: Shard,
    seen: LogPrefix<J>,
}

impl<J: Naming> Model for LoggedShard<J> {
    ghost use Rattle.avm_pool.specs.Logged.{AgreesAfter, LoggedShard};

    ghost Value = { LoggedShard };

    ghost view = { λ s. record { shard = s.shard; seen = s.seen } };

    ghost invariant = { λ s. AgreesAfter J.base J.header J.calls s.seen s.shard };
}

impl<J: Naming> LoggedShard<J> {
    /// A shard that agrees with a beginning of the log.
    pub fn new(shard: Shard, seen: LogPrefix<J>) -> LoggedShard<J>
        requires { AgreesAfter J.base J.header J.calls seen shard }
        ensures { result ≡ record { shard = shard; seen = seen } }
    {
        LoggedShard { shard, seen }
    }

    /// The shard, and what it agrees with.
    pub fn into_parts(self) -> (Shard, LogPrefix<J>)
        ensures parts { (result.0 ≡ self.shard) × (result.1 ≡ self.seen) }
        ensures agrees { AgreesAfter J.base J.header J.calls result.1 result.0 }
    {
        (self.shard, self.seen)
    }

    /// Reads an item at a timestamp, as [`Shard::read_at`] does.
    pub fn read_at(&mut self, timestamp: u64, item: &Item) -> Result<ItemValue, ReadError>
        requires { 0 < timestamp }
        ensures ok { IfOk result (IsReadAt timestamp self.old.shard self.new.shard item.now) }
        ensures seen { self.new.seen ≡ self.old.seen }
        ensures unchanged { OnErr result (self.new ≡ self.old) }
        ensures pruned { IsErrOf result (Fault Pruned) ↔ timestamp < self.old.shard.low }
    {
        every_call_keeps_agreement();
        self.shard.read_at(timestamp, item)
    }
}
