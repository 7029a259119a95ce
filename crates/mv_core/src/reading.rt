//! Reads of the attempt in a slot.

ghost use Rattle.std.specs.Prelude.{◌≡◌, ◌↔◌, IfOk, IsErrOf, IsSome, None, OnErr, get_or};
ghost use Rattle.teal_value.specs.declared.failure.Failure.TheVariants.{Fault};
ghost use Rattle.mv_shards.specs.declared.read_fault.ReadFault.TheVariants.{Pruned};
ghost use Rattle.mv_shards.specs.Helds.{IsHeld};
ghost use Rattle.mv_core.specs.Stores.{IsPrunedAttempt, IsReadSlot};

use avm_items::{Item, ItemValue};
use mv_shards::{Attempt, Held, ReadError};

/// Reads an item, for the attempt in a slot.
pub(crate) fn read_at(
    held: &mut Held,
    attempts: &mut Vec<Option<Attempt>>,
    index: usize,
    item: Item,
) -> Result<ItemValue, ReadError>
    requires held { IsHeld held.old item }
    requires there { IsSome (get_or attempts.old.items index None) }
    ensures ok { IfOk result (λ value.
        IsReadSlot held.old held.new attempts.old.items attempts.new.items index item value) }
    ensures pruned { IsErrOf result (Fault Pruned)
        ↔ IsPrunedAttempt held.old attempts.old.items index item }
    ensures held { OnErr result (held.new ≡ held.old) }
    ensures attempts { OnErr result (attempts.new.items ≡ attempts.old.items) }
{
    match &mut attempts[index] {
        Some(attempt) => held.read(attempt, item),
        None => unreachable!(),
    }
}
