//! How a worker waits.

use std::hint::spin_loop;
use std::sync::{Mutex, MutexGuard, Wait};
use std::thread;

/// How often a worker looks whether a lock is free with no more than pauses in between, since most are held for less than a
/// microsecond.
const FIRST_LOOKS: u32 = 32;

/// How often it looks after that, and lets other threads go first in between, before it sleeps until the lock is free.
const MAX_LOOKS: u32 = 1024;

/// How many pauses of the processor there are between two looks.
const PAUSES_A_LOOK: u32 = 8;

/// How many turns a worker waits after the first attempt of a call; after each further one it waits four times as long.
const FIRST_TURNS: u32 = 16;

/// How many times the wait grows, at most.
const MAX_GROWTHS: u32 = 3;

/// Takes a lock. Whoever holds one lets it go within microseconds, and a thread that sleeps is woken much later than
/// that; so a worker looks for a while first.
pub(crate) fn lock_soon<'b, T, R: Wait>(rt: &R, mutex: &'b Mutex<T>) -> MutexGuard<'b, T> {
    for look in 0..FIRST_LOOKS + MAX_LOOKS {
        if let Some(guard) = mutex.try_lock() {
            return guard;
        }
        if look < FIRST_LOOKS {
            pause();
        } else {
            wait_a_turn();
        }
    }
    mutex.lock(rt)
}

/// Lets others go first, the longer the more attempts a call has had. Where many calls write one item, each attempt may
/// make another one late; so those that were late stay out of the way.
pub(crate) fn stand_back(tries: u32) {
    let growths = tries.saturating_sub(1).min(MAX_GROWTHS);
    for _ in 0..FIRST_TURNS << (2 * growths) {
        wait_a_turn();
    }
}

/// A moment, and then other threads go first.
fn wait_a_turn() {
    pause();
    thread::yield_now();
}

fn pause() {
    for _ in 0..PAUSES_A_LOOK {
        spin_loop();
    }
}
