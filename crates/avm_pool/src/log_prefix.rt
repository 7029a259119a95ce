//! Beginnings of a log.

ghost use Rattle.std.specs.Prelude.{◌≡◌, ◌≤◌, length};
ghost use mathlib.Core.List.{IsPrefix};

use crate::commit_log::LogRule;
use crate::naming::Naming;
use logbook::Seen;
use mv_parts::Entry;
use std::marker::{Model, PhantomData};

/// A beginning of the log of a run, which was seen. Of its entries no more than their number is kept.
#[derive(Drop)]
pub struct LogPrefix<J: Naming> {
    len: usize,
    seen: Seen<Entry, u64, LogRule>,
    of: PhantomData<J>,
}

impl<J: Naming> Model for LogPrefix<J> {
    ghost use Rattle.std.specs.Prelude.{◌≡◌, List, length};
    ghost use Rattle.mv_parts.specs.CallHistory.{CallEntry};

    ghost Value = { List CallEntry };

    ghost view = { λ p. p.seen.log };

    ghost invariant = { λ p. (p.len ≡ length p.seen.log) × (p.seen.book ≡ J.book) };
}

impl<J: Naming> LogPrefix<J> {
    /// What was seen of the log.
    pub(crate) fn of(len: usize, seen: &Seen<Entry, u64, LogRule>) -> LogPrefix<J>
        requires len { len ≡ length seen.now.log }
        requires book { seen.now.book ≡ J.book }
        ensures { result ≡ seen.now.log }
    {
        LogPrefix {
            len,
            seen: seen.again(),
            of: PhantomData,
        }
    }

    /// How many entries it has.
    pub fn len(&self) -> usize
        ensures { result ≡ length self.now }
    {
        self.len
    }

    /// A copy.
    pub fn again(&self) -> LogPrefix<J>
        ensures { result ≡ self.now }
    {
        LogPrefix::of(self.len, &self.seen)
    }

    /// Of two beginnings of one log the shorter begins the longer. It does no work.
    pub fn begins(&self, other: &LogPrefix<J>)
        ensures { length self.now ≤ length other.now → IsPrefix self.now other.now }
    {
        let _lens = (self.len, other.len);
        let mut both = self.seen.again();
        both.learn(&other.seen);
    }
}
