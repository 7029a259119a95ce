//! The numbers of the calls that are not in a block.

ghost use Rattle.std.specs.Prelude.{◌≡◌, ◌<◌, ◌≤◌, IfOk, vec_len};
ghost use Rattle.std.specs.List.{AllByRecursion};
ghost use Rattle.avm_pool.specs.Proposals.{AreMarkedNumbers, left_to};

use std::alloc::{AllocError, Global};

/// The numbers 1 to the count that do not stand in a list, rising.
pub(crate) fn left_of(alloc: Global, numbers: &[u32], count: u32) -> Result<Vec<u32>, AllocError>
    requires { AllByRecursion (λ n. (0 < n) × (n ≤ count)) numbers.now }
    ensures { IfOk result (λ left. left.items ≡ left_to numbers.now count) }
{
    let marks = marks_of(alloc, numbers, count)?;
    unmarked(alloc, numbers, &marks, count)
}

/// Whether each number, from 1, stands in a list.
fn marks_of(alloc: Global, numbers: &[u32], count: u32) -> Result<Vec<bool>, AllocError>
    requires { AllByRecursion (λ n. (0 < n) × (n ≤ count)) numbers.now }
    ensures { IfOk result (λ marks. AreMarkedNumbers numbers.now count marks.items) }
{
    let mut marks = vec![in alloc; false; count as usize]?;
    for number in numbers {
        marks[*number as usize - 1] = true;
    }
    Ok(marks)
}

/// The numbers without a mark.

fn unmarked(
    alloc: Global,
    numbers: &[u32],
    marks: &[bool],
    count: u32,
) -> Result<Vec<u32>, AllocError>
    requires { AreMarkedNumbers numbers.now count marks.now }
    ensures { IfOk result (λ left. left.items ≡ left_to numbers.now count) }
{
    let mut left = Vec::new(alloc);
    for below in 0..count {
        if !marks[below as usize] {
            left.push(below + 1)?;
        }
    }
    Ok(left)
}
