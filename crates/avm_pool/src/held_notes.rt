//! What is known of each shard that is held.

ghost use Rattle.std.specs.Prelude.{◌≡◌, ◌↔◌, ◌<◌, ℕ, IsTrue, None, get_or, if◌then◌else◌, is_some, length, slice_index};
ghost use Rattle.avm_pool.specs.Logged.{AreBeginnings, AreCurrent, IsBeginning, IsCurrent, note_of, raised_note};

use crate::log_prefix::LogPrefix;
use crate::naming::Naming;

/// A shard's low mark, and the beginning of the log with which it agrees; none where it is not held.
pub(crate) type Note<J> = Option<(u64, LogPrefix<J>)>;

/// Whether no commit since has read or written an item of any of the shards, and each has this low mark.
pub(crate) fn are_current<J: Naming>(
    notes: &[Note<J>],
    whole: &LogPrefix<J>,
    last: &[usize],
    low: u64,
) -> bool
    requires { length notes.now ≡ length last.now }
    ensures current { IsTrue result ↔ AreCurrent low last.now notes.now }
    ensures begin { IsTrue result → AreBeginnings whole.now notes.now }
{
    for index in 0..notes.len() {
        if !is_current(&notes[index], whole, last[index], low) {
            return false;
        }
    }
    true
}

/// Whether no commit since has read or written an item of the shard, and it has this low mark.
fn is_current<J: Naming>(note: &Note<J>, whole: &LogPrefix<J>, last: usize, low: u64) -> bool
    ensures current { IsTrue result ↔ IsCurrent low last note.now }
    ensures begins { IsBeginning whole.now note.now }
{
    match note {
        Some((own, seen)) => {
            seen.begins(whole);
            *own == low && seen.len() == last
        }
        None => true,
    }
}

/// Raises the low mark of each to a mark.
pub(crate) fn raise<J: Naming>(notes: &mut [Note<J>], low: u64)
    ensures count { length notes.new ≡ length notes.old }
    ensures each { (i : ℕ) → i < length notes.old
        → get_or notes.new i None ≡ raised_note low (get_or notes.old i None) }
{
    for index in 0..notes.len() {
        raise_one(&mut notes[index], low);
    }
}

fn raise_one<J: Naming>(note: &mut Note<J>, low: u64)
    ensures { note.new ≡ raised_note low note.old }
{
    if let Some((own, _seen)) = note {
        *own = (*own).max(low);
    }
}

/// Each agrees with the whole log.
pub(crate) fn note_all<J: Naming>(notes: &mut [Note<J>], whole: &LogPrefix<J>)
    ensures count { length notes.new ≡ length notes.old }
    ensures each { (i : ℕ) → i < length notes.old
        → get_or notes.new i None ≡ note_of whole.now (get_or notes.old i None) }
{
    for index in 0..notes.len() {
        note_one(&mut notes[index], whole);
    }
}

fn note_one<J: Naming>(note: &mut Note<J>, whole: &LogPrefix<J>)
    ensures { note.new ≡ note_of whole.now note.old }
{
    if let Some((_low, seen)) = note {
        *seen = whole.again();
    }
}

/// Each that is held was last read or written by the commit of a number.
pub(crate) fn renumber<J: Naming>(last: &mut [usize], notes: &[Note<J>], number: usize)
    requires { length notes.now ≡ length last.old }
    ensures count { length last.new ≡ length last.old }
    ensures each { (i : ℕ) → i < length last.old → slice_index last.new i
        ≡ (if is_some (get_or notes.now i None) then number else slice_index last.old i) }
{
    for index in 0..notes.len() {
        if notes[index].is_some() {
            last[index] = number;
        }
    }
}
