//! Views of a debugger in words.

ghost use Rattle.std.specs.Prelude.{◌≡◌, ◌++◌, IfOk, OnOk, decimal, map, string_bytes};
ghost use Rattle.hex.specs.Hex.{encode_lower};
ghost use Rattle.avm_stepper.specs.Changes.{change_seen, changes_seen, local_change_seen, local_seen};
ghost use Rattle.avm_stepper.specs.Scratch.{places_seen};
ghost use Rattle.avm_stepper.specs.Shown.{next_seen, view_seen};
ghost use Rattle.avm_input.specs.Shown.{texts};
ghost use Rattle.avm_commands.specs.ViewTexts.{bytes_text, change_texts, global_text, key_text, lines_text, local_text, next_text, now_text, part_text, place_text, scratch_text, value_text, view_text};

use avm_stepper::{KeyChange, LocalChange, Next, ScratchPlace, View};
use std::alloc::{AllocError, Global};
use teal_dis::line;
use teal_value::{ByteString, StateKey, Value, address_text};

/// A view in words, a line for each thing that it shows.
pub fn view_text(alloc: Global, view: &View<'_>) -> Result<String, AllocError>
    ensures { IfOk result (λ text. string_bytes text ≡ view_text (view_seen view.now)) }
{
    let mut text = place_text(alloc, view.place, &view.next)?;
    let stack = value_lines(alloc, view.stack)?;
    push_part(alloc, &mut text, "stack", stack)?;
    let scratch = scratch_lines(alloc, &view.scratch)?;
    push_part(alloc, &mut text, "scratch", scratch)?;
    let ints = number_lines(alloc, view.uint_constants)?;
    push_part(alloc, &mut text, "ints", ints)?;
    let bytes = digit_lines(alloc, view.byte_constants)?;
    push_part(alloc, &mut text, "bytes", bytes)?;
    let changes = change_lines(alloc, &view.global_changes, &view.local_changes)?;
    push_part(alloc, &mut text, "changes", changes)?;
    Ok(text)
}

/// The lines of a place and of what comes next there.
fn place_text(alloc: Global, place: u16, next: &Next<'_>) -> Result<String, AllocError>
    ensures { IfOk result (λ text. string_bytes text ≡ place_text place (next_seen next.now)) }
{
    let next = next_text(alloc, place, next)?;
    format!(in alloc; "place {place}\nnext {next}\n")
}

fn next_text(alloc: Global, place: u16, next: &Next<'_>) -> Result<String, AllocError>
    ensures { IfOk result (λ text. string_bytes text ≡ next_text place (next_seen next.now)) }
{
    match next {
        Next::Instruction(instruction) => line(alloc, place, instruction),
        Next::Fault(fault) => {
            let name = fault.name();
            format!(in alloc; "fault {name}")
        }
        Next::End => String::from_str(alloc, "end"),
    }
}

/// Adds lines behind a line with a name and how many they are.
fn push_part(
    alloc: Global,
    text: &mut String,
    name: &str,
    lines: Vec<String>,
) -> Result<(), AllocError>
    ensures { OnOk result
        (string_bytes text.new ≡ string_bytes text.old ++ part_text name.now (texts lines.items)) }
{
    let count = lines.len();
    let heading = format!(in alloc; "{name} {count}\n")?;
    text.push_str(&heading)?;
    push_lines(text, &lines)
}

fn push_lines(text: &mut String, lines: &[String]) -> Result<(), AllocError>
    ensures { OnOk result
        (string_bytes text.new ≡ string_bytes text.old ++ lines_text (texts lines.now)) }
{
    for line in lines {
        text.push_str(line)?;
        text.push_str("\n")?;
    }
    Ok(())
}

fn value_lines(alloc: Global, values: &[Value]) -> Result<Vec<String>, AllocError>
    ensures { IfOk result (λ lines. texts lines.items ≡ map value_text values.now) }
{
    let mut lines = Vec::new(alloc);
    for value in values {
        lines.push(value_text(alloc, value)?)?;
    }
    Ok(lines)
}

fn scratch_lines(alloc: Global, places: &[ScratchPlace]) -> Result<Vec<String>, AllocError>
    ensures { IfOk result (λ lines. texts lines.items ≡ map scratch_text (places_seen places.now)) }
{
    let mut lines = Vec::new(alloc);
    for place in places {
        lines.push(scratch_text(alloc, place)?)?;
    }
    Ok(lines)
}

fn number_lines(alloc: Global, numbers: &[u64]) -> Result<Vec<String>, AllocError>
    ensures { IfOk result (λ lines. texts lines.items ≡ map decimal numbers.now) }
{
    let mut lines = Vec::new(alloc);
    for number in numbers {
        lines.push(format!(in alloc; "{number}")?)?;
    }
    Ok(lines)
}

fn digit_lines(alloc: Global, strings: &[ByteString]) -> Result<Vec<String>, AllocError>
    ensures { IfOk result (λ lines. texts lines.items ≡ map encode_lower strings.now) }
{
    let mut lines = Vec::new(alloc);
    for bytes in strings {
        lines.push(hex::encode(alloc, bytes.as_slice())?)?;
    }
    Ok(lines)
}

fn change_lines(
    alloc: Global,
    globals: &[KeyChange],
    locals: &[LocalChange],
) -> Result<Vec<String>, AllocError>
    ensures { IfOk result (λ lines.
        texts lines.items ≡ change_texts (changes_seen globals.now) (local_seen locals.now)) }
{
    let mut lines = Vec::new(alloc);
    push_globals(alloc, &mut lines, globals)?;
    push_locals(alloc, &mut lines, locals)?;
    Ok(lines)
}

fn push_globals(
    alloc: Global,
    lines: &mut Vec<String>,
    changes: &[KeyChange],
) -> Result<(), AllocError>
    ensures { OnOk result (texts lines.new.items
        ≡ texts lines.old.items ++ map global_text (changes_seen changes.now)) }
{
    for change in changes {
        lines.push(global_text(alloc, change)?)?;
    }
    Ok(())
}

fn push_locals(
    alloc: Global,
    lines: &mut Vec<String>,
    changes: &[LocalChange],
) -> Result<(), AllocError>
    ensures { OnOk result
        (texts lines.new.items ≡ texts lines.old.items ++ map local_text (local_seen changes.now)) }
{
    for change in changes {
        lines.push(local_text(alloc, change)?)?;
    }
    Ok(())
}

fn scratch_text(alloc: Global, place: &ScratchPlace) -> Result<String, AllocError>
    ensures { IfOk result
        (λ text. string_bytes text ≡ scratch_text (place.now.index, place.now.value)) }
{
    let index = place.index;
    let value = value_text(alloc, &place.value)?;
    format!(in alloc; "{index} {value}")
}

fn global_text(alloc: Global, change: &KeyChange) -> Result<String, AllocError>
    ensures { IfOk result (λ text. string_bytes text ≡ global_text (change_seen change.entry.now)) }
{
    let key = key_text(alloc, &change.key, &change.now)?;
    format!(in alloc; "global {key}")
}

fn local_text(alloc: Global, change: &LocalChange) -> Result<String, AllocError>
    ensures { IfOk result
        (λ text. string_bytes text ≡ local_text (local_change_seen change.entry.now)) }
{
    let account = address_text(alloc, &change.account)?;
    let key = key_text(alloc, &change.key, &change.now)?;
    format!(in alloc; "local {account} {key}")
}

/// A key, and its value if it has one.
fn key_text(alloc: Global, key: &StateKey, value: &Option<Value>) -> Result<String, AllocError>
    ensures { IfOk result (λ text. string_bytes text ≡ key_text key.now value.now) }
{
    let key = hex::encode(alloc, key.as_slice())?;
    let value = now_text(alloc, value)?;
    format!(in alloc; "0x{key} {value}")
}

fn now_text(alloc: Global, value: &Option<Value>) -> Result<String, AllocError>
    ensures { IfOk result (λ text. string_bytes text ≡ now_text value.now) }
{
    match value {
        Some(value) => value_text(alloc, value),
        None => String::from_str(alloc, "gone"),
    }
}

fn value_text(alloc: Global, value: &Value) -> Result<String, AllocError>
    ensures { IfOk result (λ text. string_bytes text ≡ value_text value.now) }
{
    match value {
        Value::Uint(number) => format!(in alloc; "uint {number}"),
        Value::Bytes(bytes) => bytes_text(alloc, bytes.as_slice()),
    }
}

/// A byte string as a value. Where there are no digits, no space stands before them.
fn bytes_text(alloc: Global, bytes: &[u8]) -> Result<String, AllocError>
    ensures { IfOk result (λ text. string_bytes text ≡ bytes_text bytes.now) }
{
    if bytes.is_empty() {
        return String::from_str(alloc, "bytes");
    }
    let digits = hex::encode(alloc, bytes)?;
    format!(in alloc; "bytes {digits}")
}
