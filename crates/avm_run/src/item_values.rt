//! What a run knows of an item.

ghost use Rattle.std.specs.Option.{option_copied};
ghost use Rattle.avm_run.specs.Knowing.{KnowsAt, KnowsIn};
ghost use Rattle.avm_run.specs.Progress.{Follows, reads_of, steps_of};
ghost use Rattle.avm_run.specs.Standing.{StandsIn};

use crate::call_run::Live;
use crate::phase::Phase;
use crate::running::Running;
use avm_items::{Item, ItemValue};
use avm_laws::call_laws::runs_know_the_ledger;

impl Running {
    /// The value of an item, if it is known.
    pub(crate) fn value(&self, item: &Item) -> Option<&ItemValue>
        requires stands { StandsIn self.now }
        ensures { KnowsAt self.now.env.call
            self.now.env.header self.now.env.reads self.now.steps item.now (option_copied result) }
    {
        runs_know_the_ledger();
        self.env.value(item)
    }
}

impl Live {
    /// The value of an item, if the program has begun and it is known.
    pub(crate) fn value(&self, item: &Item) -> Option<&ItemValue>
        requires follows { Follows self.now.call self.now.header self.now.phase }
        ensures { KnowsIn self.now.call self.now.header
            (reads_of self.now.phase) (steps_of self.now.phase) item.now (option_copied result) }
    {
        match &self.phase {
            Phase::Tests(_) => None,
            Phase::Runs(running) => running.value(item),
        }
    }
}
