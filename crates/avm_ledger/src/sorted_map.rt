//! Maps made of entries by rising key.

ghost use Rattle.std.specs.Prelude.{◌≡◌, IfOk};
ghost use Rattle.std.specs.Map.{keys_of};
ghost use Rattle.std.specs.List.Sorted.{IsStrictlySortedBy};
ghost use Rattle.std.proofs.lemmas.Map.Lookups.{CmpEqualImpliesEq};

use std::alloc::{AllocError, Global};
use std::collections::BTreeMap;

/// The map of entries that stand in a list by rising key. Its nodes are filled one after another, without a search.
pub(crate) fn map_of<K: Ord + Drop, V: Drop>(
    alloc: Global,
    entries: Vec<(K, V)>,
) -> Result<BTreeMap<K, V>, AllocError>
    requires order { IsStrictlySortedBy K.cmp (keys_of entries.items) }
    requires exact { CmpEqualImpliesEq K.cmp }
    ensures { IfOk result (λ map. map.entries ≡ entries.items) }
{
    let map: BTreeMap<K, V> = entries.into_iter().collect(alloc)?;
    Ok(map)
}
