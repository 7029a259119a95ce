//! Lists written anew in the memory that they have.

ghost use Rattle.std.specs.Prelude.{◌≡◌, MatchResult};

use std::alloc::AllocError;

/// Puts other items in a list, in the memory that it has where they fit. Where an allocation is refused the list stays.
pub fn write_over<T: Copy>(list: &mut Vec<T>, items: &[T]) -> Result<(), AllocError>
    ensures { MatchResult result
        (λ _. list.new.items ≡ items.now) (λ _. list.new.items ≡ list.old.items) }
{
    if list.len() == items.len() {
        list.as_mut_slice().copy_from_slice(items);
        return Ok(());
    }
    list.reserve(items.len().saturating_sub(list.len()))?;
    list.clear();
    list.extend_from_slice(items)
}
