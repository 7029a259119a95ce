//! Why a store refuses a call.

ghost use Rattle.std.specs.Prelude.{◌≡◌};
ghost use Rattle.mv_core.specs.FaultNames.{abandon_fault_name, commit_fault_name, read_fault_name, state_fault_name};
ghost use Rattle.mv_core.specs.FaultNumbers.{commit_fault_number};

use avm_items::Item;
use avm_run::Finished;
use teal_value::Failure;
use thiserror::Error;

/// Why an item is not read.
#[derive(Clone, Copy, Debug, PartialEq, Eq, Error)]
#[error("{name}", name = self.name())]
pub enum ReadFault {
    /// The ticket is of no live attempt.
    Unknown = 1,
}

impl ReadFault {
    /// Its name.
    pub fn name(self) -> &'static str
        ensures { result.now ≡ read_fault_name self }
    {
        match self {
            ReadFault::Unknown => "Unknown",
        }
    }
}

/// A [`ReadFault`], or that memory ran out.
pub type ReadError = Failure<ReadFault>;

/// Why a finished call does not commit, in the order of the tests.
#[derive(Debug, Drop, Error)]
#[error("{name}", name = self.name())]
pub enum CommitFault {
    /// The ticket is of no live attempt.
    Unknown,
    /// The finished call is not the attempt's: another call, another header, or other reads.
    Stranger,
    /// The version that a write would follow was read above its timestamp: the least such item, with the version and the
    /// last timestamp that read it.
    Late { item: Item, version: u64, mark: u64 },
}

impl CommitFault {
    /// Its number, from 1: not that of its place in the order of the tests.
    pub fn number(&self) -> u8
        ensures { result ≡ commit_fault_number self.now }
    {
        match self {
            CommitFault::Late { .. } => 1,
            CommitFault::Unknown => 2,
            CommitFault::Stranger => 3,
        }
    }

    /// Its name.
    pub fn name(&self) -> &'static str
        ensures { result.now ≡ commit_fault_name self.now }
    {
        match self {
            CommitFault::Unknown => "Unknown",
            CommitFault::Stranger => "Stranger",
            CommitFault::Late { .. } => "Late",
        }
    }
}

/// A [`CommitFault`], or that memory ran out.
pub type CommitError = Failure<CommitFault>;

/// A commit that was refused, with the finished call.
#[derive(Drop)]
pub struct RefusedCommit {
    pub error: CommitError,
    pub finished: Finished,
}

/// Why nothing is abandoned.
#[derive(Clone, Copy, Debug, PartialEq, Eq, Error)]
#[error("{name}", name = self.name())]
pub enum AbandonFault {
    /// The ticket is of no live attempt.
    Unknown = 1,
}

impl AbandonFault {
    /// Its name.
    pub fn name(self) -> &'static str
        ensures { result.now ≡ abandon_fault_name self }
    {
        match self {
            AbandonFault::Unknown => "Unknown",
        }
    }
}

/// Why there is no ledger of the past.
#[derive(Clone, Copy, Debug, PartialEq, Eq, Error)]
#[error("{name}", name = self.name())]
pub enum StateFault {
    /// The timestamp is below the low mark.
    Pruned = 1,
}

impl StateFault {
    /// Its name.
    pub fn name(self) -> &'static str
        ensures { result.now ≡ state_fault_name self }
    {
        match self {
            StateFault::Pruned => "Pruned",
        }
    }
}

/// A [`StateFault`], or that memory ran out.
pub type StateError = Failure<StateFault>;
