//! What is noted of the numbers of chains.

ghost use Rattle.std.specs.Prelude.{◌≡◌, ◌≤◌, ◌<◌, [], ◌∷◌, ◌++◌, IfOk, IsTrue, OnOk, length, vec_capacity};
ghost use Rattle.mv_shards.specs.Several.{numbers_in, room_in};

use crate::slot::SLOT_COUNT;
use std::alloc::{AllocError, Global};

/// Numbers of chains. They lie apart, so that a shard moves with few bytes.
#[derive(Drop)]
pub(crate) struct Notes {
    /// For each slot the number of the item that was asked for last, so that most items are found without a look into the
    /// map. Nothing rests on it: whether the chain of the number is the item's is asked each time.
    recent: [usize; SLOT_COUNT],
    /// The numbers of the chains with more than one version, each once, with room for those of all chains. A prune goes through
    /// them alone.
    pub(crate) several: Vec<usize>,
}

/// Notes, or none where nothing was noted yet.
pub(crate) type MaybeNotes = Option<Box<Notes>>;

/// The number in a slot, or one that no chain has.
pub(crate) fn noted_in(notes: &MaybeNotes, slot: usize) -> usize {
    match notes {
        Some(notes) => number_in_slot(&notes.recent, slot),
        None => usize::MAX,
    }
}

fn number_in_slot(recent: &[usize], slot: usize) -> usize {
    recent.get(slot).copied().unwrap_or(usize::MAX)
}

/// Notes a number in a slot, if there are slots.
pub(crate) fn note(notes: &mut MaybeNotes, slot: usize, number: usize)
    ensures numbers { numbers_in notes.new ≡ numbers_in notes.old }
    ensures room { room_in notes.new ≡ room_in notes.old }
{
    match notes {
        Some(notes) => put_in_slot(&mut notes.recent, slot, number),
        None => {}
    }
}

fn put_in_slot(recent: &mut [usize], slot: usize, number: usize) {
    if let Some(there) = recent.get_mut(slot) {
        *there = number;
    }
}

/// Makes room for the numbers of so many chains.
pub(crate) fn make_room_for(
    alloc: Global,
    notes: &mut MaybeNotes,
    count: usize,
) -> Result<(), AllocError>
    requires { length (numbers_in notes.old) ≤ count }
    ensures numbers { numbers_in notes.new ≡ numbers_in notes.old }
    ensures room { room_in notes.old ≤ room_in notes.new }
    ensures ok { OnOk result (count ≤ room_in notes.new) }
{
    if has_room_for(notes, count) {
        return Ok(());
    }
    make_more_room(alloc, notes, count)
}

/// Whether there is room for the numbers of so many chains.
fn has_room_for(notes: &MaybeNotes, count: usize) -> bool
    ensures { IsTrue result → count ≤ room_in notes.now }
{
    match notes {
        Some(notes) => count <= notes.several.capacity(),
        None => false,
    }
}

/// Makes room, where there is less. It is out of line, since there is room for most.
#[cold]
#[inline(never)]
fn make_more_room(alloc: Global, notes: &mut MaybeNotes, count: usize) -> Result<(), AllocError>
    requires { length (numbers_in notes.old) ≤ count }
    ensures numbers { numbers_in notes.new ≡ numbers_in notes.old }
    ensures room { room_in notes.old ≤ room_in notes.new }
    ensures ok { OnOk result (count ≤ room_in notes.new) }
{
    match notes {
        Some(notes) => {
            let more = count - notes.several.len();
            notes.several.reserve(more)
        }
        None => {
            *notes = Some(notes_for(alloc, count)?);
            Ok(())
        }
    }
}

/// Nothing noted, with room for the numbers of so many chains. It is made out of line, since no caller is to have room for the
/// slots among its own variables.
#[inline(never)]
fn notes_for(alloc: Global, count: usize) -> Result<Box<Notes>, AllocError>
    ensures { IfOk result (λ notes. (notes.value.several.items ≡ [])
        × (count ≤ vec_capacity notes.value.several)) }
{
    let several = Vec::with_capacity(alloc, count)?;
    Ok(Box::new(
        alloc,
        Notes {
            recent: [usize::MAX; SLOT_COUNT],
            several,
        },
    )?)
}

/// Adds the number of a chain that is to have more than one version.
pub(crate) fn add_number(notes: &mut MaybeNotes, number: usize)
    requires { length (numbers_in notes.old) < room_in notes.old }
    ensures numbers { numbers_in notes.new ≡ numbers_in notes.old ++ number ∷ [] }
    ensures room { room_in notes.new ≡ room_in notes.old }
{
    match notes {
        Some(notes) => notes.several.push_reserved(number),
        None => unreachable!(),
    }
}
