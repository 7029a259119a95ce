//! Finite maps as lists of entries, each a key with its value, by rising key.
//!
//! They serve maps of few entries: a list takes one piece of memory of its own size, which is read from its front to its
//! back, where a tree takes a node of a fixed size and more for the first entry. A new entry moves those behind it.

ghost use Rattle.std.specs.Prelude.{◌≡◌, ◌+◌, ◌≤◌, None, IfErr, IfOk, MatchResult, if◌then◌else◌, insert, is_some, length};
ghost use Rattle.std.specs.Option.{option_copied};
ghost use Rattle.std.specs.Map.{keys_of, lookup, remove_entry};
ghost use Rattle.std.specs.BTreeMap.{insert_entry, is_at};
ghost use Rattle.std.specs.List.Sorted.{IsStrictlySortedBy};
ghost use Rattle.avm_states.specs.Places.{IsPlaceOf};

use std::alloc::AllocError;
use std::mem;

/// Where a key stands, or where it would go, found in logarithmic time.
#[inline(always)]
pub fn place_of<K: Ord, V>(entries: &[(K, V)], key: &K) -> Result<usize, usize>
    requires order { IsStrictlySortedBy K.cmp (keys_of entries.now) }
    ensures { IsPlaceOf K.cmp key.now entries.now result }
{
    entries.binary_search_by(|entry| entry.0.cmp(key))
}

/// The value of a key, found in logarithmic time.
pub fn value_of<'a, K: Ord, V>(entries: &'a [(K, V)], key: &K) -> Option<&'a V>
    requires order { IsStrictlySortedBy K.cmp (keys_of entries.now) }
    ensures { option_copied result ≡ lookup (is_at (K.cmp key.now)) entries.now }
{
    match place_of(entries, key) {
        Ok(place) => Some(&entries[place].1),
        Err(_) => None,
    }
}

/// Gives a key a value, in place of the one that it may have had, which is answered. Only a new key can be refused.
#[inline(always)]
pub fn put<K: Ord + Drop, V: Drop>(
    entries: &mut Vec<(K, V)>,
    key: K,
    value: V,
) -> Result<Option<V>, AllocError>
    requires order { IsStrictlySortedBy K.cmp (keys_of entries.old.items) }
    ensures old { IfOk result (λ old. old ≡ lookup (is_at (K.cmp key)) entries.old.items) }
    ensures set { IfOk result
        (λ _. entries.new.items ≡ insert_entry K.cmp entries.old.items key value) }
    ensures len { IfOk result (λ old.
        length entries.new.items ≡ length entries.old.items + (if is_some old then 0 else 1)) }
    ensures unchanged { IfErr result (λ _. entries.new.items ≡ entries.old.items) }
    ensures only_new { IfErr result (λ _. lookup (is_at (K.cmp key)) entries.old.items ≡ None) }
{
    match place_of(entries, &key) {
        Ok(place) => Ok(Some(mem::replace(&mut entries[place].1, value))),
        Err(place) => {
            add(entries, place, (key, value))?;
            Ok(None)
        }
    }
}

/// Puts an entry in at a place. Most come last, where nothing has to be moved.
#[inline(always)]
fn add<T: Drop>(entries: &mut Vec<T>, place: usize, entry: T) -> Result<(), AllocError>
    requires { place ≤ length entries.old.items }
    ensures { MatchResult result (λ _. entries.new.items ≡ insert entries.old.items place entry)
        (λ _. entries.new.items ≡ entries.old.items) }
{
    if place == entries.len() {
        entries.push(entry)?;
    } else {
        entries.insert(place, entry)?;
    }
    Ok(())
}

/// Takes a key out, and gives the value that it had.
pub fn take<K: Ord + Drop, V: Drop>(entries: &mut Vec<(K, V)>, key: &K) -> Option<V>
    requires order { IsStrictlySortedBy K.cmp (keys_of entries.old.items) }
    ensures value { result ≡ lookup (is_at (K.cmp key.now)) entries.old.items }
    ensures rest { entries.new.items ≡ remove_entry (is_at (K.cmp key.now)) entries.old.items }
    ensures len { length entries.new.items ≤ length entries.old.items }
{
    match place_of(entries, key) {
        Ok(place) => Some(entries.remove(place).1),
        Err(_) => None,
    }
}
