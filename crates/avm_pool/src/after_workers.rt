//! What one thread does once the workers have ended.

use crate::ends::AttemptEnd;
use crate::gate::Gate;
use crate::logged_held::LoggedHeld;
use crate::logged_journal::LoggedJournal;
use crate::naming::Naming;
use crate::running::{Executor, Shared};
use crate::worker::WorkerContext;
use avm_ops::Op;
use avm_run::FullOps;
use std::sync::{Mutex, Wait};

/// Runs each call that is not committed, once, by rising number. False where the last timestamp was given.
pub(crate) fn run_remaining<J: Naming, G: Gate, R: Wait, O: Op>(
    rt: &R,
    journal: &Mutex<LoggedJournal<J>>,
    shared: &Shared<J, G>,
    ops: &FullOps<O>,
) -> bool {
    let context = WorkerContext {
        rt,
        journal,
        shared,
    };
    let mut executor = Executor { ops, spare: None };
    let mut held = LoggedHeld::new(shared.alloc);
    let mut number = 0u32;
    for _call in shared.calls {
        number = number.saturating_add(1);
        if context.run_attempt(&mut executor, &mut held, number, 0) == AttemptEnd::ClockEnd {
            return false;
        }
    }
    true
}
