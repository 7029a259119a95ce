//! Eight workers that run calls on a ledger, step by step in a given order: what each step does is a function of the
//! steps before it (specs/Running.antt), and the world that it leads to is one of those of which the order theorem
//! speaks (specs/Laws.antt). The functions here are laws and do no work.
ghost use Rattle.mv_core.specs.RunningLaws.{EveryReadIsUsed, EveryRunIsSerial, EveryRunLeadsOn, EverySameRunGoesOn, EveryWorkerIsLive, TestsAreInTime};

use mv_parts::every_interleaving_of_calls_is_serial;

/// A step of one of eight workers, numbered from 0. A step that does not apply where it comes changes nothing.
#[derive(Clone, Copy, Debug, PartialEq, Eq)]
pub enum Event {
    /// An idle worker begins a call, by its number from 1.
    Begin(u8, u32),
    /// A worker reads the item that its call asks for next.
    Read(u8),
    /// A worker whose call asks for nothing more commits it, where it is in time.
    Commit(u8),
    /// A worker abandons its attempt.
    Abandon(u8),
    /// The low mark rises to a timestamp, as far as the clock and the live attempts allow.
    Prune(u64),
}

/// Whatever list of steps the workers make, the events of the order theorem lead to their world, and its committed
/// calls are serial.
pub fn every_run_is_serial()
    ensures leads { EveryRunLeadsOn }
    ensures serial { EveryRunIsSerial }
    ensures workers { EveryWorkerIsLive }
{
    every_interleaving_of_calls_is_serial();
}

/// The item that a Read takes is one that the call uses, on every ledger that has what was read.
pub fn every_read_is_used()
    ensures { EveryReadIsUsed }
{}

/// A run whose world lacks marks that no one from the low mark on asks for goes on as one that has them all, and the
/// test by which a commit is late is the order theorem's. So a store that drops old versions makes the same steps.
pub fn every_same_run_goes_on()
    ensures same { EverySameRunGoesOn }
    ensures in_time { TestsAreInTime }
{}
