//! How often what has come.

use crate::lists::Replayed;
use avm_block::Entry;
use avm_call::Outcome;
use avm_items::Completion;

/// So often each has come, over all lists.
#[derive(Clone, Copy, Debug, PartialEq, Eq)]
pub struct Tally {
    pub lists: u64,
    /// Approved calls, by what they are.
    pub creations: u64,
    pub opt_ins: u64,
    pub close_outs: u64,
    pub clearings: u64,
    pub updates: u64,
    pub deletions: u64,
    pub plain: u64,
    /// Committed calls that are not approved.
    pub rejected: u64,
    pub faulted: u64,
    pub refused: u64,
    pub cleared_anyway: u64,
    /// Calls that are late where each worker has tried to commit.
    pub late: u64,
    /// Attempts beyond as many as there are calls.
    pub restarts: u64,
    /// Lists in which the low mark has risen.
    pub prunes: u64,
}

/// Before any list.
pub const NOTHING: Tally = Tally {
    lists: 0,
    creations: 0,
    opt_ins: 0,
    close_outs: 0,
    clearings: 0,
    updates: 0,
    deletions: 0,
    plain: 0,
    rejected: 0,
    faulted: 0,
    refused: 0,
    cleared_anyway: 0,
    late: 0,
    restarts: 0,
    prunes: 0,
};

/// Where a committed call counts.
fn place<'a>(tally: &'a mut Tally, entry: &Entry) -> &'a mut u64 {
    match entry.outcome {
        Outcome::Approved => {}
        Outcome::Rejected => return &mut tally.rejected,
        Outcome::Faulted(_fault, _place) => return &mut tally.faulted,
        Outcome::Refused(_why) => return &mut tally.refused,
        Outcome::ClearedAnyway(_cause) => return &mut tally.cleared_anyway,
    }
    let fields = entry.call.fields();
    match fields.completion {
        _ if fields.application == 0 => &mut tally.creations,
        Completion::NoOp => &mut tally.plain,
        Completion::OptIn => &mut tally.opt_ins,
        Completion::CloseOut => &mut tally.close_outs,
        Completion::ClearState => &mut tally.clearings,
        Completion::UpdateApplication => &mut tally.updates,
        Completion::DeleteApplication => &mut tally.deletions,
    }
}

/// Adds a list, of so many calls, in which so many were late at the end.
pub fn count(tally: &mut Tally, list: &Replayed, calls: u64, late: u64) {
    tally.late = tally.late.saturating_add(late);
    tally.lists = tally.lists.saturating_add(1);
    for entry in list.block.entries() {
        let place = place(tally, entry);
        *place = place.saturating_add(1);
    }
    tally.restarts = tally
        .restarts
        .saturating_add(list.clock.saturating_sub(calls));
    if list.low > 0 {
        tally.prunes = tally.prunes.saturating_add(1);
    }
}

/// Whether each kind of call and outcome has come so often at least, with so many late calls, restarts and prunes.
pub fn is_ample(tally: &Tally, each: u64, late: u64, restarts: u64, prunes: u64) -> bool {
    let kinds = [
        tally.creations,
        tally.opt_ins,
        tally.close_outs,
        tally.clearings,
        tally.updates,
        tally.deletions,
        tally.plain,
        tally.rejected,
        tally.faulted,
        tally.refused,
        tally.cleared_anyway,
    ];
    for count in kinds {
        if count < each {
            return false;
        }
    }
    tally.late >= late && tally.restarts >= restarts && tally.prunes >= prunes
}
