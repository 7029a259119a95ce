//! The versions of one item, for multiversion timestamp ordering (Bernstein, Hadzilacos, Goodman, "Concurrency
//! Control and Recovery in Database Systems", section 5.3). What each call does to the list of versions is defined in
//! specs/Versions.antt.
//!
//! A call at the newest version takes constant time, as most do; another finds its index by bisection.

ghost use Rattle.std.specs.Prelude.{◌≡◌, ◌==◌, if◌then◌else◌, ◌+◌, ◌-◌, ◌<◌, ◌≤◌, ◌≢◌, max, [], ◌∷◌, ◌++◌, drop, length, OnOk, OnErr, IsOk, vec_len, vec_capacity};
ghost use Rattle.std.specs.List.{AllByRecursion};
ghost use Rattle.mv_chain.specs.Versions.{count_not_above, IsChain, IsPutBehind, IsRow, marked_at_index, oldest_timestamp, newest_at, mark_in, versions_read_at, lateness, versions_with, versions_from};
ghost use Rattle.mv_chain.specs.Laws.{EveryReadFindsTheNewest, EveryReadMarksItsVersionAlone, EveryInstallIsFound, EveryPruneKeepsReads, EveryMarkIsOfItsVersion, EveryReadRaisesOneMark, EveryInstallKeepsMarks, EveryPruneKeepsMarks};

use std::alloc::{AllocError, Global};
use std::marker::Model;
use std::mem;

/// A version of an item.
#[derive(Drop)]
pub struct Version<V> {
    /// Of the commit that wrote it; 0 for the base's version.
    pub timestamp: u64,
    /// The greatest timestamp that read it, or 0.
    pub mark: u64,
    pub value: V,
}

/// Why a write is late: the version that it follows was read above the write's timestamp.
#[derive(Clone, Copy, Debug, PartialEq, Eq)]
pub struct Late {
    /// The timestamp of that version.
    pub version: u64,
    /// The greatest timestamp that read it.
    pub mark: u64,
}

/// The versions of one item, by rising timestamp: one at least, each with its read timestamp (its mark). The newest, which most
/// calls ask for, lies in the chain itself, so that an item that is never written takes no memory of its own.
#[derive(Drop)]
pub struct Chain<V> {
    older: Vec<Version<V>>,
    newest: Version<V>,
}

impl<V> Model for Chain<V> {
    ghost use Rattle.std.specs.Prelude.{vec_len, vec_capacity, ◌-◌, ◌++◌, ◌∷◌, []};
    ghost use Rattle.mv_chain.specs.Versions.{Versions, IsChain};

    ghost Value = { Versions V };

    ghost view = { λ c. record { list = c.older.items ++ c.newest ∷ []; room = vec_capacity c.older - vec_len c.older } };

    ghost invariant = { λ c. IsChain (c.older.items ++ c.newest ∷ []) };
}

// How many versions are not above a timestamp, by bisection.
fn count_to<V>(versions: &[Version<V>], timestamp: u64) -> usize
    requires { IsRow versions.now }
    ensures count { result ≡ count_not_above timestamp versions.now }
    ensures within { result ≤ length versions.now }
{
    versions.partition_point(|version| version.timestamp <= timestamp)
}

// Raises a mark to a timestamp.
fn raise(mark: &mut u64, timestamp: u64)
    ensures { mark.new ≡ max mark.old timestamp }
{
    if *mark < timestamp {
        *mark = timestamp;
    }
}

// Raises the mark of the newest of these versions that is not above a timestamp.
fn mark_older<V>(older: &mut Vec<Version<V>>, timestamp: u64)
    requires row { IsRow older.old.items }
    requires some { 0 < count_not_above timestamp older.old.items }
    ensures items { older.new.items
        ≡ marked_at_index (count_not_above timestamp older.old.items - 1) timestamp older.old.items }
    ensures room { vec_capacity older.new
        - vec_len older.new ≡ vec_capacity older.old - vec_len older.old }
{
    let index = count_to(older, timestamp) - 1;
    raise(&mut older[index].mark, timestamp);
}

// Puts a version behind the newest.
fn follow<V: Drop>(
    older: &mut Vec<Version<V>>,
    newest: &mut Version<V>,
    version: Version<V>,
) -> Result<(), AllocError>
    ensures { IsPutBehind version older.old older.new newest.old newest.new result }
{
    if older.len() < older.capacity() {
        older.push_reserved(mem::replace(newest, version));
        return Ok(());
    }
    follow_full(older, newest, version)
}

// The same, where there may be no room. It is out of line, since whoever has made room needs none of it.
#[cold]
#[inline(never)]
fn follow_full<V: Drop>(
    older: &mut Vec<Version<V>>,
    newest: &mut Version<V>,
    version: Version<V>,
) -> Result<(), AllocError>
    ensures { IsPutBehind version older.old older.new newest.old newest.new result }
{
    let before = mem::replace(newest, version);
    match older.insert(older.len(), before) {
        Ok(()) => Ok(()),
        Err(refused) => {
            *newest = refused.value;
            Err(AllocError)
        }
    }
}

// Drops the first versions.
fn drop_front<V: Drop>(versions: &mut Vec<Version<V>>, count: usize)
    requires { count ≤ length versions.old.items }
    ensures items { versions.new.items ≡ drop count versions.old.items }
    ensures room { vec_capacity versions.old
        - vec_len versions.old ≤ vec_capacity versions.new - vec_len versions.new }
{
    versions.drain(..count);
}

impl<V> Chain<V> {
    /// The base's version alone. It takes no memory.
    pub fn new(alloc: Global, base: V) -> Chain<V>
        ensures { result.list ≡ record { timestamp = 0; mark = 0; value = base } ∷ [] }
    {
        Chain {
            older: Vec::new(alloc),
            newest: Version {
                timestamp: 0,
                mark: 0,
                value: base,
            },
        }
    }

    /// The timestamp of the oldest version, below which nothing is asked for any more.
    pub fn oldest(&self) -> u64
        ensures oldest { result ≡ oldest_timestamp self.now.list }
        ensures chain { IsChain self.now.list }
    {
        match self.older.first() {
            Some(version) => version.timestamp,
            None => self.newest.timestamp,
        }
    }

    /// How many versions are held.
    pub fn count(&self) -> usize
        ensures count { result ≡ length self.now.list }
        ensures chain { IsChain self.now.list }
    {
        self.older.len() + 1
    }

    /// The newest version not above a timestamp.
    fn newest_to(&self, timestamp: u64) -> &Version<V>
        requires { oldest_timestamp self.now.list ≤ timestamp }
        ensures { (d : _) → result.now ≡ newest_at timestamp self.now.list d }
    {
        if self.newest.timestamp <= timestamp {
            return &self.newest;
        }
        let count = count_to(&self.older, timestamp);
        &self.older[count - 1]
    }

    /// The value of the newest version not above a timestamp.
    pub fn read_at(&self, timestamp: u64) -> &V
        requires { oldest_timestamp self.now.list ≤ timestamp }
        ensures { (d : _) → result.now ≡ (newest_at timestamp self.now.list d).value }
    {
        &self.newest_to(timestamp).value
    }

    /// The timestamp of the newest version not above a timestamp.
    pub fn timestamp_at(&self, timestamp: u64) -> u64
        requires { oldest_timestamp self.now.list ≤ timestamp }
        ensures { (d : _) → result ≡ (newest_at timestamp self.now.list d).timestamp }
    {
        self.newest_to(timestamp).timestamp
    }

    /// The mark of the version with this timestamp; 0 also where none with it is held.
    pub fn mark_of(&self, timestamp: u64) -> u64
        ensures { result ≡ mark_in timestamp self.now.list }
    {
        if self.newest.timestamp <= timestamp {
            return mark_at(&self.newest, timestamp);
        }
        let count = count_to(&self.older, timestamp);
        if count == 0 {
            return 0;
        }
        mark_at(&self.older[count - 1], timestamp)
    }

    /// Notes that the newest version not above a timestamp was read at it.
    pub fn mark(&mut self, timestamp: u64)
        requires { oldest_timestamp self.old.list ≤ timestamp }
        ensures list { self.new.list ≡ versions_read_at timestamp self.old.list }
        ensures chain { IsChain self.new.list }
        ensures room { self.new.room ≡ self.old.room }
    {
        if self.newest.timestamp <= timestamp {
            raise(&mut self.newest.mark, timestamp);
        } else {
            mark_older(&mut self.older, timestamp);
        }
    }

    /// Whether a write at a timestamp is late.
    pub fn late(&self, timestamp: u64) -> Option<Late>
        requires { oldest_timestamp self.now.list ≤ timestamp }
        ensures { (d : _) → result ≡ lateness timestamp (newest_at timestamp self.now.list d) }
    {
        let version = self.newest_to(timestamp);
        if timestamp < version.mark {
            Some(Late {
                version: version.timestamp,
                mark: version.mark,
            })
        } else {
            None
        }
    }

    /// Makes room for one more version, so that the next `install` is not refused. A commit to many chains makes
    /// all its room first.
    pub fn reserve(&mut self) -> Result<(), AllocError>
        ensures list { self.new.list ≡ self.old.list }
        ensures ok { OnOk result (0 < self.new.room) }
        ensures succeeds { 0 < self.old.room → IsOk result }
    {
        // Most items are written once or never.
        if self.older.is_empty() {
            self.older.reserve_exact(1)
        } else {
            self.older.reserve(1)
        }
    }

    /// Adds a version, which nothing has read yet. It is refused only where there is no room for it; the value is
    /// dropped then.
    pub fn install(&mut self, timestamp: u64, value: V) -> Result<(), AllocError>
    where
        V: Drop,
        requires old_enough { oldest_timestamp self.old.list ≤ timestamp }
        requires absent { AllByRecursion (λ version. version.timestamp ≢ timestamp) self.old.list }
        ensures ok { OnOk result (self.new.list ≡ versions_with timestamp value self.old.list) }
        ensures err { OnErr result (self.new.list ≡ self.old.list) }
        ensures chain { IsChain self.new.list }
        ensures succeeds { 0 < self.old.room → IsOk result }
        ensures room { 0 < self.old.room → self.new.room + 1 ≡ self.old.room }
    {
        let version = Version {
            timestamp,
            mark: 0,
            value,
        };
        if self.newest.timestamp < timestamp {
            follow(&mut self.older, &mut self.newest, version)
        } else {
            let index = count_to(&self.older, timestamp);
            self.older.insert(index, version)?;
            Ok(())
        }
    }

    /// Drops the versions that no reader at this timestamp or above it can find.
    pub fn prune(&mut self, timestamp: u64)
    where
        V: Drop,
        ensures list { self.new.list ≡ versions_from timestamp self.old.list }
        ensures chain { IsChain self.new.list }
        ensures room { self.old.room ≤ self.new.room }
    {
        if self.newest.timestamp <= timestamp {
            self.older.clear();
            return;
        }
        let count = count_to(&self.older, timestamp);
        if count > 1 {
            drop_front(&mut self.older, count - 1);
        }
    }

    /// Gives back the room for one more version, where the newest is the only one. More room is kept: who was written often
    /// will be again.
    pub fn give_back_room(&mut self)
    where
        V: Drop,
        ensures list { self.new.list ≡ self.old.list }
        ensures chain { IsChain self.new.list }
    {
        if self.older.is_empty() && self.older.capacity() == 1 {
            self.older.shrink_to_fit();
        }
    }
}

/// The mark of a version, if it has this timestamp, and else 0.
fn mark_at<V>(version: &Version<V>, timestamp: u64) -> u64
    ensures { result ≡ (if version.now.timestamp == timestamp then version.now.mark else 0) }
{
    if version.timestamp == timestamp {
        version.mark
    } else {
        0
    }
}

/// A read finds the version with the greatest timestamp not above its own.
pub fn every_read_finds_the_newest<V>()
    ensures { EveryReadFindsTheNewest V }
{}

/// A read raises the mark of the version that it finds, and changes nothing else of what reads find.
pub fn every_read_marks_its_version_alone<V>()
    ensures { EveryReadMarksItsVersionAlone V }
{}

/// A version that was added is found from its timestamp on, up to the next newer one; all other reads find what
/// they found before.
pub fn every_install_is_found<V>()
    ensures { EveryInstallIsFound V }
{}

/// Pruning at a low mark changes no read from the low mark on, and leaves one version at most that is not above it.
pub fn every_prune_keeps_reads<V>()
    ensures { EveryPruneKeepsReads V }
{}

/// What calls do to the marks of versions, each found by its version's timestamp: a read raises the mark of the
/// version that it finds and of no other; a new version has none; pruning keeps those that a reader from the low
/// mark on can find, and drops the others.
pub fn every_call_keeps_marks<V>()
    ensures found { EveryMarkIsOfItsVersion V }
    ensures read { EveryReadRaisesOneMark V }
    ensures install { EveryInstallKeepsMarks V }
    ensures prune { EveryPruneKeepsMarks V }
{}
