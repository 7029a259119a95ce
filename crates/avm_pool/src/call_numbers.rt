//! Numbers of calls, handed from one thread to several through a bounded queue, each once.
//!
//! Whoever puts or draws carries a pass, a value without bytes that knows what it has put and drawn. The rule of the
//! queue is in specs/NumberRule.antt: what is queued and what the passes have drawn are the numbers put.

ghost use Rattle.std.specs.Prelude.{◌≡◌, ◌+◌, ◌≤◌, true, false, [], ◌∷◌, ◌++◌, IfOk, OnErr, MatchOption, MatchResult};
ghost use Rattle.crossbeam_queue.specs.Passes.{IsSamePass, ruled_capacity, view};

use crossbeam_queue::protocol::{Lesson, Outcome, Protocol, Split};
use crossbeam_queue::{Pass, RuledArrayQueue};
use std::alloc::{AllocError, Global};
use std::collections::LinkedList;
use std::sync::Wait;

/// How many numbers a queue has room for: as many as a block has entries.
pub const ROOM: usize = 4096;

/// What a pass knows: whether it may put, how many numbers it has put, and which it has drawn. No value of it is made.
pub struct PassState {
    pub puts: bool,
    pub put: u64,
    pub drawn: LinkedList<u32>,
}

/// The rule: what is queued and what the passes have drawn are the numbers put, each once.
pub struct FifoRule;

impl Protocol<u32, PassState> for FifoRule {
    ghost use Rattle.std.specs.Prelude.{true, []};
    ghost use Rattle.avm_pool.specs.NumberRule.{Numbered, hand};

    ghost holds = { Numbered };

    ghost first = { hand true 0 [] };
}

/// A worker's pass is made beside another, which stays as it is.
struct Worker;

impl Split<PassState> for Worker {
    ghost use Rattle.std.specs.Prelude.{false, []};
    ghost use Rattle.avm_pool.specs.NumberRule.{hand};

    ghost left = { λ v. hand v.puts v.put v.drawn };

    ghost right = { λ _. hand false 0 [] };
}

/// The next number was put.
struct Puts;

impl Outcome<u32, PassState> for Puts {
    ghost use Rattle.std.specs.Prelude.{◌≡◌, ◌+◌};
    ghost use Rattle.avm_pool.specs.NumberRule.{hand};

    ghost then = { λ v x w. w ≡ hand v.puts (v.put + 1) v.drawn };
}

impl Lesson<u32, PassState> for Puts {
    ghost use Rattle.avm_pool.specs.NumberRule.{Allows};

    ghost fact = { Allows };
}

/// The front of the queue joined what the pass has drawn.
struct Draws;

impl Outcome<u32, PassState> for Draws {
    ghost use Rattle.std.specs.Prelude.{◌≡◌, ◌++◌, ◌∷◌, []};
    ghost use Rattle.avm_pool.specs.NumberRule.{hand};

    ghost then = { λ v x w. w ≡ hand v.puts v.put (v.drawn ++ x ∷ []) };
}

impl Lesson<u32, PassState> for Draws {
    ghost use Rattle.avm_pool.specs.NumberRule.{Allows};

    ghost fact = { Allows };
}

/// What a thread shows to put numbers or to draw them.
pub type NumberPass = Pass<u32, PassState>;

/// A bounded queue of the numbers 1, 2, 3 and so on, for one thread that puts them and many that draw them.
#[derive(Drop)]
pub struct Numbers {
    queue: RuledArrayQueue<u32, PassState, FifoRule>,
    ghost room: { ruled_capacity queue ≡ 4096 },
}

impl Numbers {
    ghost use Rattle.avm_pool.specs.NumberPasses.{IsWith};
    ghost use Rattle.avm_pool.specs.NumberRule.{AllowsCount, hand};

    /// An empty queue, and the one pass that may put. It takes all its memory here.
    pub fn new(alloc: Global) -> Result<(Numbers, NumberPass), AllocError>
        ensures { IfOk result (λ made. IsWith made.0 made.1 × (view made.1 ≡ hand true 0 [])) }
    {
        let (queue, pass) = RuledArrayQueue::ruled(alloc, ROOM)?;
        Ok((Numbers { queue }, pass))
    }

    /// A pass for a worker, which may draw.
    pub fn worker(&self, pass: &mut NumberPass) -> NumberPass
        requires { IsWith self.now pass.old }
        ensures queue { IsSamePass pass.old pass.new × IsWith self.now result }
        ensures views { (view pass.new ≡ view pass.old) × (view result ≡ hand false 0 []) }
    {
        self.queue.another::<Worker>(pass)
    }

    /// Puts the next number. It comes back only where the rule allows that the queue is full, which it never does for whoever
    /// puts at most [`ROOM`] numbers.
    pub fn put<R: Wait>(&self, rt: &R, pass: &mut NumberPass, number: u32) -> Result<(), u32>
        requires queue { IsWith self.now pass.old }
        requires next { ((view pass.old).puts ≡ true) × (number ≡ (view pass.old).put + 1) }
        ensures queue { IsWith self.now pass.new }
        ensures rule { MatchResult result
            (λ _. view pass.new ≡ hand true number (view pass.old).drawn) (λ back. (back ≡ number)
            × (view pass.new ≡ view pass.old) × AllowsCount ROOM (view pass.old)) }
        ensures room { OnErr result (ROOM ≤ (view pass.old).put) }
    {
        self.queue.push_as::<Puts, R>(rt, pass, number)
    }

    /// Draws the number at the front. `None` is given only where the rule allows that the queue is empty: what this pass knows
    /// goes with some passes that have drawn all numbers put. The clause says no more, since it does not name the passes that
    /// there are; that a number which is queued is drawn is tested.
    pub fn draw<R: Wait>(&self, rt: &R, pass: &mut NumberPass) -> Option<u32>
        requires { IsWith self.now pass.old }
        ensures queue { IsWith self.now pass.new }
        ensures rule { MatchOption result ((view pass.new ≡ view pass.old)
            × AllowsCount 0 (view pass.old)) (λ number. view pass.new ≡ hand (view pass.old).puts
            (view pass.old).put ((view pass.old).drawn ++ number ∷ [])) }
    {
        self.queue.pop_as::<Draws, R>(rt, pass)
    }
}
