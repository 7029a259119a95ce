//! The history of a run: its commits, in the order in which they were made. It exists in proofs alone, and what is kept of it
//! is a word, its length, and the rights to add to it. Whoever owns these owns the history.

ghost use Rattle.std.specs.Prelude.{◌≡◌, ◌+◌, ◌<◌, ◌++◌, ◌∷◌, [], IfOk, OnOk};
ghost use Rattle.mv_parts.specs.CallLaws.{entry_of};
ghost use Rattle.avm_pool.specs.LogRules.{head_of};

use crate::log_prefix::LogPrefix;
use crate::naming::Naming;
use avm_run::Finished;
use logbook::{Gain, Offer, Pen, Plain, Play, Rule, Seen, Start, Word};
use mv_parts::Entry;
use std::alloc::{AllocError, Global};
use std::marker::{Model, PhantomData};

/// The rule of the book that a log stands in.
pub struct LogRule;

impl Rule<Entry, u64> for LogRule {
    ghost use Rattle.std.specs.Prelude.{[]};
    ghost use base.Fml.{ftrue};
    ghost use Rattle.avm_pool.specs.LogRules.{IsKeptLog};

    ghost holds = { λ cells log. IsKeptLog cells log };

    ghost first = { [] };

    ghost hinted = { λ n log. Unit {0} };

    ghost shows = { λ log. [] };

    ghost keeps = { λ names log. ftrue };

    ghost moves = { λ ask before after answer. Unit {0} };
}

/// Nothing is traded for an entry.
struct NoTrade;

impl Gain<Entry, u64> for NoTrade {
    ghost use base.Fml.{ftrue};

    ghost after = { λ names about answer. ftrue };
}

/// A step that adds a cell to the book, which makes room for an entry.
struct AddCell;

impl Play<Entry, u64> for AddCell {
    ghost use Rattle.avm_pool.specs.LogRules.{AddsCell};

    ghost then = { AddsCell };
}

impl Plain<u64, Entry, u64> for AddCell {
    ghost use Rattle.std.specs.Prelude.{None};
    ghost use Rattle.avm_pool.specs.LogRules.{no_entry};

    ghost ask = { λ n. no_entry };

    ghost state = { λ n. None };
}

/// A step that adds an entry to the log.
struct AddEntry;

impl Play<Entry, u64> for AddEntry {
    ghost use Rattle.avm_pool.specs.LogRules.{AddsEntry};

    ghost then = { AddsEntry };
}

/// The parts of an entry, which stay their owner's.
#[derive(Clone, Copy)]
struct EntryParts<'a> {
    timestamp: u64,
    number: u32,
    finished: &'a Finished,
}

impl<'a> Plain<EntryParts<'a>, Entry, u64> for AddEntry {
    ghost use Rattle.std.specs.Prelude.{None};
    ghost use Rattle.mv_parts.specs.CallLaws.{entry_of};

    ghost ask = { λ parts. entry_of parts.timestamp parts.number parts.finished.now };

    ghost state = { λ parts. None };
}

/// An entry that may join a log. It has no bytes, and is made before the parts of the entry go to whoever keeps them.
#[derive(Drop)]
pub struct EntryOffer {
    offer: Offer<Entry, u64, LogRule, NoTrade>,
}

impl Model for EntryOffer {
    ghost use Rattle.std.specs.Prelude.{◌≡◌, [], None};
    ghost use Rattle.mv_parts.specs.CallHistory.{CallEntry};

    ghost Value = { CallEntry };

    ghost view = { λ o. o.offer.ask };

    ghost invariant = { λ o. (o.offer.names ≡ []) × (o.offer.state ≡ None) };
}

/// A log with no entry, which is no run's yet.
#[derive(Drop)]
pub struct OpenedLog {
    head: Word<Entry, u64, LogRule>,
    seen: Seen<Entry, u64, LogRule>,
    pub ghost empty: { seen.log ≡ [] },
    pub ghost nothing_kept: { seen.names ≡ [] },
    pub ghost head_is: { head ≡ head_of seen.book },
}

/// The log of a run, with room for more entries.
#[derive(Drop)]
pub struct CommitLog<J: Naming> {
    head: Word<Entry, u64, LogRule>,
    len: usize,
    seen: Seen<Entry, u64, LogRule>,
    /// The rights to add entries, those that are used up among them.
    pens: Vec<Pen>,
    of: PhantomData<J>,
}

impl<J: Naming> Model for CommitLog<J> {
    ghost use Rattle.std.specs.Prelude.{◌-◌, length};
    ghost use Rattle.avm_pool.specs.LogRules.{CommitLog, IsOwnedLog};

    ghost Value = { CommitLog };

    ghost view = { λ l. record { entries = l.seen.log; room = length l.pens.items - length l.seen.log } };

    ghost invariant = { λ l. IsOwnedLog J.book l.head l.len l.seen.book l.seen.names l.seen.log l.pens.items };
}

impl OpenedLog {
    /// A log with no entry.
    pub fn new() -> OpenedLog {
        let (seen, mut first, _second) = Seen::open(Start::alone(), 0, 0);
        OpenedLog {
            head: Word::tracked(0, &mut first),
            seen,
        }
    }

    /// The log as a run's, with room for so many entries. Nothing in a program but memory makes it fail.
    pub fn named<J: Naming>(self, alloc: Global, room: usize) -> Result<CommitLog<J>, AllocError>
        requires { self.seen.book ≡ J.book }
        ensures { IfOk result (λ log. log ≡ record { entries = []; room = room }) }
    {
        let mut log = self.without_room::<J>(alloc);
        for _ in 0..room {
            log.make_room()?;
        }
        Ok(log)
    }

    fn without_room<J: Naming>(self, alloc: Global) -> CommitLog<J>
        requires { self.seen.book ≡ J.book }
        ensures { result ≡ record { entries = []; room = 0 } }
    {
        let OpenedLog { head, seen } = self;
        CommitLog {
            head,
            len: 0,
            seen,
            pens: Vec::new(alloc),
            of: PhantomData,
        }
    }
}

impl<J: Naming> CommitLog<J> {
    /// Makes room for one more entry. That the book has a cell which this log did not make, nothing in a program brings about.
    fn make_room(&mut self) -> Result<(), AllocError>
        ensures same { self.new.entries ≡ self.old.entries }
        ensures room { OnOk result (self.new.room ≡ self.old.room + 1) }
    {
        self.pens.reserve(1)?;
        let count = self.pens.len() as u64;
        let mut seen = self.seen.again();
        let mut offer: Offer<Entry, u64, LogRule, NoTrade> = seen.plain::<NoTrade, u64, AddCell>(
            &count,
        );
        let mut pen = seen.no_pen();
        let found = self
            .head
            .compare_exchange::<AddCell, NoTrade>(
                count,
                count + 1,
                &mut seen,
                &mut offer,
                &mut pen,
            );
        if found != count {
            return Err(AllocError);
        }
        let _made: Word<Entry, u64, LogRule> = Word::tracked(0, &mut pen);
        self.pens.push_reserved(pen);
        Ok(())
    }

    /// The whole of it, as a beginning of what it becomes.
    pub fn prefix(&self) -> LogPrefix<J>
        ensures { result ≡ self.now.entries }
    {
        LogPrefix::of(self.len, &self.seen)
    }

    /// The entry of a call that has ended, for [`CommitLog::add`].
    pub fn offer(&self, timestamp: u64, number: u32, finished: &Finished) -> EntryOffer
        ensures { result ≡ entry_of timestamp number finished.now }
    {
        let parts = EntryParts {
            timestamp,
            number,
            finished,
        };
        EntryOffer {
            offer: self.seen.plain::<NoTrade, EntryParts, AddEntry>(&parts),
        }
    }

    /// Adds an entry. It does not fail.
    pub fn add(&mut self, entry: EntryOffer)
        requires { 0 < self.old.room }
        ensures added { self.new.entries ≡ self.old.entries ++ entry ∷ [] }
        ensures room { self.new.room + 1 ≡ self.old.room }
    {
        let EntryOffer { mut offer } = entry;
        let CommitLog {
            head,
            len,
            seen,
            pens,
            of: _,
        } = self;
        let pen = &mut pens[*len];
        let _found = head.compare_exchange::<AddEntry, NoTrade>(0, 0, seen, &mut offer, pen);
        *len += 1;
    }
}
