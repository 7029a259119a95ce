//! The operands of an instruction, each as a word.

ghost use Rattle.std.specs.Prelude.{◌≡◌, ◌≤◌, ◌∷◌, [], map, codes, decimal, string_bytes, IfOk, Ok};
ghost use Rattle.teal_dis.specs.Listing.{constant, txn_field, field, operands};
ghost use Rattle.teal_dis.specs.Shown.{texts};

use std::alloc::{AllocError, Global};
use teal_code::Immediates;
use teal_table::{Shape, global_field, txn_field};
use teal_value::ByteString;

/// The words behind the name of an opcode of this shape; the target of a branch is given.
pub(crate) fn operands(
    alloc: Global,
    shape: Shape,
    target: &str,
    immediates: &Immediates,
) -> Result<Vec<String>, AllocError>
    ensures { IfOk result (λ words. texts words.items ≡ operands shape target.now immediates.now) }
{
    match immediates {
        Immediates::Nothing => Ok(Vec::new(alloc)),
        Immediates::Index(i) => gathered(alloc, [byte(alloc, *i)]),
        Immediates::Field(f) => gathered(alloc, [field(alloc, shape, *f)]),
        Immediates::GroupField(t, f) => gathered(alloc, [byte(alloc, *t), txn(alloc, *f)]),
        Immediates::ArrayField(f, i) => gathered(alloc, [txn(alloc, *f), byte(alloc, *i)]),
        Immediates::GroupArrayField(t, f, i) => {
            gathered(alloc, [byte(alloc, *t), txn(alloc, *f), byte(alloc, *i)])
        }
        Immediates::Bounds(start, end) => gathered(alloc, [byte(alloc, *start), byte(alloc, *end)]),
        Immediates::Offset(_) => gathered(alloc, [String::from_str(alloc, target)]),
        Immediates::UintBlock(numbers) => all_numbers(alloc, numbers.as_slice()),
        Immediates::ByteBlock(strings) => all_constants(alloc, strings.as_slice()),
        Immediates::Uint(n) => gathered(alloc, [number(alloc, *n)]),
        Immediates::Bytes(bytes) => gathered(alloc, [constant(alloc, bytes)]),
    }
}

// The words, unless one of them was refused its memory.
fn gathered<const N: usize>(
    alloc: Global,
    words: [Result<String, AllocError>; N],
) -> Result<Vec<String>, AllocError>
    requires { N ≤ 3 }
    ensures { IfOk result (λ strings. words.entry ≡ map Ok strings.items) }
{
    let mut strings = Vec::new(alloc);
    for word in words {
        strings.push(word?)?;
    }
    Ok(strings)
}

fn number(alloc: Global, n: u64) -> Result<String, AllocError>
    ensures { IfOk result (λ word. string_bytes word ≡ decimal n) }
{
    format!(in alloc; "{n}")
}

fn byte(alloc: Global, n: u8) -> Result<String, AllocError>
    ensures { IfOk result (λ word. string_bytes word ≡ decimal n) }
{
    number(alloc, u64::from(n))
}

fn constant(alloc: Global, bytes: &ByteString) -> Result<String, AllocError>
    ensures { IfOk result (λ word. string_bytes word ≡ constant bytes.now) }
{
    let digits = hex::encode(alloc, bytes.as_slice())?;
    format!(in alloc; "0x{digits}")
}

fn txn(alloc: Global, number: u8) -> Result<String, AllocError>
    ensures { IfOk result (λ word. string_bytes word ≡ txn_field number) }
{
    match txn_field(number) {
        Some(field) => String::from_str(alloc, field.name()),
        None => byte(alloc, number),
    }
}

fn global(alloc: Global, number: u8) -> Result<String, AllocError>
    ensures { IfOk result (λ word. string_bytes word ≡ field Shape.GlobalField number) }
{
    match global_field(number) {
        Some(field) => String::from_str(alloc, field.name()),
        None => byte(alloc, number),
    }
}

// The field that an opcode of this shape reads.
fn field(alloc: Global, shape: Shape, number: u8) -> Result<String, AllocError>
    ensures { IfOk result (λ word. string_bytes word ≡ field shape number) }
{
    match shape {
        Shape::GlobalField => global(alloc, number),
        _ => txn(alloc, number),
    }
}

fn all_numbers(alloc: Global, numbers: &[u64]) -> Result<Vec<String>, AllocError>
    ensures { IfOk result (λ words. texts words.items ≡ map decimal numbers.now) }
{
    let mut words = Vec::new(alloc);
    for n in numbers {
        words.push(number(alloc, *n)?)?;
    }
    Ok(words)
}

fn all_constants(alloc: Global, strings: &[ByteString]) -> Result<Vec<String>, AllocError>
    ensures { IfOk result (λ words. texts words.items ≡ map constant strings.now) }
{
    let mut words = Vec::new(alloc);
    for bytes in strings {
        words.push(constant(alloc, bytes)?)?;
    }
    Ok(words)
}
