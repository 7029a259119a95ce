//! Workers over a store.

ghost use Rattle.std.specs.Prelude.{◌≡◌};
ghost use Rattle.std.specs.Option.{option_map};
ghost use Rattle.mv_core.specs.Worlds.{attempt_of, ticket_of};

use crate::store::Store;
use crate::ticket::Ticket;
use avm_items::Item;
use avm_run::{CallRun, Finished};

/// What a worker does.
#[derive(Drop)]
pub enum Worker {
    /// It has no attempt.
    Idle,
    /// The run of its attempt's call asks for an item.
    Running {
        ticket: Ticket,
        run: CallRun,
        asks: Item,
    },
    /// Its attempt's call has ended, and is not committed.
    Finished {
        ticket: Ticket,
        finished: Finished,
    },
}

impl Worker {
    /// The ticket of its attempt, if it has one.
    pub fn ticket(&self) -> Option<Ticket>
        ensures { result ≡ option_map ticket_of (attempt_of self.now) }
    {
        match self {
            Worker::Idle => None,
            Worker::Running {
                ticket,
                run: _run,
                asks: _asks,
            } => Some(*ticket),
            Worker::Finished {
                ticket,
                finished: _finished,
            } => Some(*ticket),
        }
    }
}

/// A store and its workers, numbered from 0.
#[derive(Drop)]
pub struct World {
    pub store: Store,
    pub workers: Vec<Worker>,
}
