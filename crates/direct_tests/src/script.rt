//! A gate that holds workers at some of their events until others have come, so that their calls overlap.

use avm_pool::{Gate, GateEvent};
use std::alloc::Global;
use std::sync::atomic::{AtomicBool, AtomicU64, Ordering};
use std::test::Fail;
use std::thread;

/// How often a held worker lets others go first, at most. On a machine with more threads than processors, 100,000 turns
/// have run out before the other worker was let run.
const TURNS: u32 = 1_000_000;

/// Holds the worker of a call at an event of one of its attempts, until an event of another call has come.
#[derive(Clone, Copy)]
pub struct Hold {
    pub number: u32,
    pub attempt: u32,
    pub event: GateEvent,
    pub other: u32,
    pub until: GateEvent,
}

/// A gate by rows, and what has come.
#[derive(Drop)]
pub struct Script<'a> {
    holds: &'a [Hold],
    /// For each row, whether what it waits for has come.
    over: Vec<AtomicBool>,
    /// How often each call was committed, by number.
    commits: Vec<AtomicU64>,
    /// How many events were not of a first attempt.
    again: AtomicU64,
    ran_out: AtomicBool,
}

impl<'a> Script<'a> {
    pub fn new(alloc: Global, holds: &'a [Hold], calls: usize) -> Result<Script<'a>, Fail> {
        let mut over = Vec::new(alloc);
        for _hold in holds {
            over.push(AtomicBool::new(false))?;
        }
        let mut commits = Vec::new(alloc);
        for _number in 0..calls {
            commits.push(AtomicU64::new(0))?;
        }
        Ok(Script {
            holds,
            over,
            commits,
            again: AtomicU64::new(0),
            ran_out: AtomicBool::new(false),
        })
    }

    /// Whether nobody waited in vain, and each call was committed once.
    pub fn is_passed(&self) -> bool {
        for commits in self.commits.as_slice() {
            if commits.load(Ordering::SeqCst) != 1 {
                return false;
            }
        }
        !self.ran_out.load(Ordering::SeqCst)
    }

    /// Whether each event was of a call's first attempt.
    pub fn is_first(&self) -> bool {
        self.again.load(Ordering::SeqCst) == 0
    }

    fn note(&self, number: u32, attempt: u32, event: GateEvent) {
        if attempt != 1 {
            self.again.fetch_add(1, Ordering::SeqCst);
        }
        if number == 0 || event != GateEvent::Committed {
            return;
        }
        if let Some(commits) = self.commits.get(number as usize - 1) {
            commits.fetch_add(1, Ordering::SeqCst);
        }
    }

    /// Lets those go who wait for this.
    fn let_go(&self, number: u32, event: GateEvent) {
        for (hold, over) in self.holds.iter().zip(self.over.iter()) {
            if hold.other == number && hold.until == event {
                over.store(true, Ordering::SeqCst);
            }
        }
    }

    fn wait(&self, over: &AtomicBool) {
        for _turn in 0..TURNS {
            if over.load(Ordering::SeqCst) {
                return;
            }
            thread::yield_now();
        }
        self.ran_out.store(true, Ordering::SeqCst);
    }
}

impl Gate for Script<'_> {
    fn pause(&self, number: u32, attempt: u32, event: GateEvent) {
        self.note(number, attempt, event);
        self.let_go(number, event);
        for (hold, over) in self.holds.iter().zip(self.over.iter()) {
            if hold.number == number && hold.attempt == attempt && hold.event == event {
                self.wait(over);
            }
        }
    }
}
