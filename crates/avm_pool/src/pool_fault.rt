//! Why nothing is proposed.

ghost use Rattle.std.specs.Prelude.{◌≡◌};
ghost use Rattle.avm_pool.specs.FaultNames.{pool_fault_name};
ghost use Rattle.avm_pool.specs.FaultNumbers.{pool_fault_number};

use std::fmt;
use teal_value::Failure;
use thiserror::Error;

/// Why nothing is proposed, in the order of the tests. The last two depend on what the threads do.
#[derive(Clone, Copy, Debug, PartialEq, Eq, Error)]
pub enum PoolFault {
    /// There are no workers' sets of objects, or more than 8, or there are more calls than a block has entries.
    Workers,
    /// A set has no object of this code: the least such code of the first such set. The caller's own set comes last.
    OpMissing(u8),
    /// The call of this number, counted from 1, needs a newer profile than the header's: the first such call.
    Profile { number: u32 },
    /// A thread could not be started. Those that were started have ended.
    Spawn,
    /// The last timestamp was given.
    ClockEnd,
}

impl fmt::Display for PoolFault {
    fn fmt<W: fmt::Write>(&self, f: &mut fmt::Formatter<W>) -> fmt::Result {
        f.write_str(self.name())
    }
}

impl PoolFault {
    /// Its number, from 1: not that of its place in the order of the tests.
    pub fn number(self) -> u8
        ensures { result ≡ pool_fault_number self }
    {
        match self {
            PoolFault::Workers => 1,
            PoolFault::OpMissing(_code) => 2,
            PoolFault::Spawn => 3,
            PoolFault::ClockEnd => 4,
            PoolFault::Profile { .. } => 5,
        }
    }

    /// Its name, as commands print it.
    pub fn name(self) -> &'static str
        ensures { result.now ≡ pool_fault_name self }
    {
        match self {
            PoolFault::Workers => "Workers",
            PoolFault::OpMissing(_code) => "OpMissing",
            PoolFault::Profile { number: _number } => "Profile",
            PoolFault::Spawn => "Spawn",
            PoolFault::ClockEnd => "ClockEnd",
        }
    }
}

/// A [`PoolFault`], or that memory ran out.
pub type PoolError = Failure<PoolFault>;
