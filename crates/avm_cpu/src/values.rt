//! Lists of values that are full at all times: what stands in one is written over in place, so that the first values of a
//! list, so many, grow and shrink by a count alone.

ghost use Rattle.std.specs.Prelude.{◌≡◌, ◌-◌, ◌<◌, ◌≤◌, ◌∷◌, length, drop, replicate, reverse, slice_get, slice_set, take, IfErr, IfOk, MatchResult, Some};
ghost use Rattle.std.specs.Option.{option_copied};
ghost use Rattle.teal_value.specs.declared.value.Value.TheVariants.{Bytes, Uint};
ghost use Rattle.avm_cpu.specs.Operands.{two_values};

use arrayvec::ArrayVec;
use std::alloc::{AllocError, Global};
use std::mem;
use teal_value::{ByteString, Value};

/// A list of zeros. It is made out of line, since no caller is to have room for one among its own variables.
#[inline(never)]
pub(crate) fn zeros<const N: usize>(alloc: Global) -> Result<Box<ArrayVec<Value, N>>, AllocError>
    ensures { IfOk result (λ values. values.value.items ≡ replicate N (Uint 0)) }
{
    Ok(Box::new(alloc, ArrayVec::from_array_in((), Default::default()))?)
}

/// Of the first values, so many, the one so many below the last.
#[inline]
pub(crate) fn below_last(values: &[Value], count: usize, below: usize) -> Option<&Value>
    requires { count ≤ length values.now }
    ensures { option_copied result ≡ slice_get (reverse (take count values.now)) below }
{
    if below < count {
        Some(&values[count - 1 - below])
    } else {
        None
    }
}

/// Writes a value to a place.
#[inline]
pub(crate) fn put<const N: usize>(values: &mut ArrayVec<Value, N>, place: usize, value: Value)
    requires { place < length values.old.items }
    ensures { values.new.items ≡ slice_set values.old.items place value }
{
    values.as_mut_slice()[place] = value;
}

/// Writes a number to a place. Over a number that is one word, without a test of what else would have to be freed.
#[inline]
pub(crate) fn put_uint<const N: usize>(values: &mut ArrayVec<Value, N>, place: usize, number: u64)
    requires { place < length values.old.items }
    ensures { values.new.items ≡ slice_set values.old.items place (Uint number) }
{
    write_uint(&mut values.as_mut_slice()[place], number);
}

#[inline]
fn write_uint(there: &mut Value, number: u64)
    ensures { there.new ≡ Uint number }
{
    match there {
        Value::Uint(before) => *before = number,
        Value::Bytes(_) => write_uint_over_bytes(there, number),
    }
}

#[cold]
#[inline(never)]
fn write_uint_over_bytes(there: &mut Value, number: u64)
    ensures { there.new ≡ Uint number }
{
    *there = Value::Uint(number);
}

/// Writes a copy of bytes to a place: in the memory of the value there, if it is a byte string that has enough. Where memory is
/// refused the value there stays.
#[inline]
pub(crate) fn write_bytes<const N: usize>(
    values: &mut ArrayVec<Value, N>,
    place: usize,
    alloc: Global,
    bytes: &[u8],
) -> Result<(), AllocError>
    requires { place < length values.old.items }
    ensures written { IfOk result
        (λ _. values.new.items ≡ slice_set values.old.items place (Bytes bytes.now)) }
    ensures unchanged { IfErr result (λ _. values.new.items ≡ values.old.items) }
    ensures len { length values.new.items ≡ length values.old.items }
{
    write_bytes_over(&mut values.as_mut_slice()[place], alloc, bytes)
}

#[inline]
fn write_bytes_over(there: &mut Value, alloc: Global, bytes: &[u8]) -> Result<(), AllocError>
    ensures { MatchResult result (λ _. there.new ≡ Bytes bytes.now) (λ _. there.new ≡ there.old) }
{
    match there {
        Value::Bytes(before) => before.rewrite(alloc, bytes),
        Value::Uint(_) => {
            *there = Value::Bytes(ByteString::from_slice(alloc, bytes)?);
            Ok(())
        }
    }
}

/// Takes the value at a place, and leaves a zero there.
#[inline]
pub(crate) fn take_out<const N: usize>(values: &mut ArrayVec<Value, N>, place: usize) -> Value
    requires { place < length values.old.items }
    ensures value { slice_get values.old.items place ≡ Some result }
    ensures rest { values.new.items ≡ slice_set values.old.items place (Uint 0) }
{
    mem::replace(&mut values.as_mut_slice()[place], Value::Uint(0))
}

/// Writes zeros over the first values, so many.
pub(crate) fn put_zeros<const N: usize>(values: &mut ArrayVec<Value, N>, count: usize)
    requires full { length values.old.items ≡ N }
    requires there { count ≤ N }
    requires rest { drop count values.old.items ≡ replicate (N - count) (Uint 0) }
    ensures { values.new.items ≡ replicate N (Uint 0) }
{
    for place in 0..count {
        put_uint(values, place, 0);
    }
}

/// Of the first values, so many, exchanges the last two.
#[inline]
pub(crate) fn swap_last<const N: usize>(values: &mut ArrayVec<Value, N>, count: usize)
    requires two { 2 ≤ count }
    requires there { count ≤ length values.old.items }
    ensures swapped { IfOk (two_values (reverse (take count values.old.items))) (λ p. reverse (take
        count values.new.items) ≡ p.0 ∷ p.1 ∷ drop 2 (reverse (take count values.old.items))) }
    ensures len { length values.new.items ≡ length values.old.items }
{
    values.as_mut_slice().swap(count - 2, count - 1);
}
