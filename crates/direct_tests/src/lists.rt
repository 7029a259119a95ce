//! Lists of events, run over a store and replayed.

ghost use Rattle.std.specs.Prelude.{◌≡◌, IfOk, None};
ghost use Rattle.std.specs.Arc.{arc_value};
ghost use Rattle.avm_block.specs.CallsFaults.{calls_fault};

use crate::data::stand_once;
use avm_block::Block;
use avm_call::Call;
use avm_ledger::{Header, Ledger};
use avm_ops::Op;
use avm_replay::{Verdict, replay, state_at};
use avm_run::FullOps;
use mv_core::{Event, Store, Tools, World, run_events};
use mv_parts::Sealed;
use sample_calls::calls::HEADER;
use std::alloc::Global;
use std::sync::Arc;
use std::test::Fail;

/// The digest of the ledger of a timestamp, by a store.
fn digest_at(alloc: Global, store: &Store, timestamp: u64) -> Result<[u8; 32], Fail> {
    match store.state_at(alloc, timestamp) {
        Ok(ledger) => Ok(ledger.digest(alloc)?),
        Err(_) => Err("there is no state of this timestamp".into()),
    }
}

/// What a store in which nothing is live says of its past.
#[derive(Clone, Copy, Debug)]
struct Past {
    low: u64,
    clock: u64,
    timestamp: u64,
    /// The digests of the ledgers of the timestamp and of the clock.
    then: [u8; 32],
    now: [u8; 32],
}

/// The past of a store, for a timestamp that is so far behind its low mark. Where nothing is live, a prune raises the low
/// mark to the clock.
fn past_of(alloc: Global, store: &mut Store, behind: u64) -> Result<Past, Fail> {
    let low = store.low();
    let timestamp = low.saturating_add(behind);
    let then = digest_at(alloc, store, timestamp)?;
    store.prune(u64::MAX);
    let clock = store.low();
    let now = digest_at(alloc, store, clock)?;
    Ok(Past {
        low,
        clock,
        timestamp,
        then,
        now,
    })
}

/// A block that was replayed, with the low mark and the clock of its store.
#[derive(Drop)]
pub struct Replayed {
    pub block: Block,
    pub low: u64,
    pub clock: u64,
}

/// What lists of events are run with: the objects, and the ledger that each store begins with.
#[derive(Drop)]
pub struct Bench<'a, O: Op> {
    pub alloc: Global,
    pub ops: &'a FullOps<O>,
    pub base: &'a Ledger,
}

impl<'a, O: Op> Bench<'a, O> {
    /// The world that events lead to, with calls.
    pub fn world_after(&self, calls: &Arc<Vec<Call>>, events: &[Event]) -> Result<World, Fail> {
        let calls = self.store_calls(HEADER, calls)?;
        let base = self.base.clone()?;
        let tools = Tools {
            alloc: self.alloc,
            ops: self.ops,
        };
        Ok(run_events(&tools, base, HEADER, calls, events)?)
    }

    /// The calls, where a store opens for them, which says that they are few, each of the header's profile.
    fn store_calls(&self, header: Header, calls: &Arc<Vec<Call>>) -> Result<Arc<Vec<Call>>, Fail>
        ensures { IfOk result (λ calls. calls_fault header (arc_value calls).items ≡ None) }
    {
        let own = Arc::try_clone(calls)?;
        match Store::open(self.alloc, self.base.clone()?, header, own) {
            Ok(_store) => Ok(Arc::try_clone(calls)?),
            Err(_) => Err("these calls make a store".into()),
        }
    }

    /// The digest of the ledger of a timestamp, by the replayer.
    fn replayed_at(&self, block: &Block, timestamp: u64) -> Result<[u8; 32], Fail> {
        match state_at(self.alloc, self.base, block, timestamp, self.ops) {
            Ok(ledger) => Ok(ledger.digest(self.alloc)?),
            Err(_) => Err("a block stands over its base".into()),
        }
    }

    /// Whether a block replays, to a ledger of this digest.
    fn leads_to(&self, block: &Block, digest: &[u8; 32]) -> Result<bool, Fail> {
        match replay(self.alloc, self.base, block, self.ops)? {
            Verdict::Agrees(after) => Ok(after.digest(self.alloc)? == *digest),
            _ => Ok(false),
        }
    }

    /// Where a sealed block and what its store said differ from the replay, if they do.
    fn difference(
        &self,
        sealed: &Sealed,
        past: &Past,
        calls: usize,
    ) -> Result<Option<&'static str>, Fail> {
        if !stand_once(self.alloc, sealed.numbers.as_slice(), calls)? {
            return Ok(Some("a call is committed twice"));
        }
        if !self.leads_to(&sealed.block, &past.now)? {
            return Ok(Some("the block doesn't replay"));
        }
        if self.replayed_at(&sealed.block, past.timestamp)? != past.then {
            return Ok(Some("the ledgers of a timestamp differ"));
        }
        Ok(None)
    }

    /// The block of a store in which nothing is live, if it is as the replayer has it: it replays, to the ledger that the
    /// store has at its clock; the ledgers of a timestamp are the same, so far behind the low mark; and the number of each
    /// committed call stands once, and is at most the count of calls.
    pub fn replay_store(&self, store: Store, calls: usize, behind: u64) -> Result<Replayed, Fail> {
        let mut store = store;
        let past = past_of(self.alloc, &mut store, behind)?;
        match store.seal(self.alloc) {
            Ok(sealed) => match self.difference(&sealed, &past, calls)? {
                None => Ok(Replayed {
                    block: sealed.block,
                    low: past.low,
                    clock: past.clock,
                }),
                Some(difference) => Err(difference.into()),
            },
            Err(_) => Err("an attempt is live".into()),
        }
    }
}
