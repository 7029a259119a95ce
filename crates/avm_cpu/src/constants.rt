//! The constants in force, in memory that stays from one constant block to the next and from run to run.

ghost use Rattle.std.specs.Prelude.{◌≡◌, ◌+◌, ◌<◌, ◌≤◌, ◌++◌, ◌∷◌, [], length, take, IfOk, OnOk, MatchResult};

use std::alloc::{AllocError, Global};
use std::marker::Model;
use std::mem;
use teal_value::ByteString;

/// Writes a byte string at a place of a list, over the one that stands there or behind the last.
fn write_at(
    alloc: Global,
    list: &mut Vec<ByteString>,
    place: usize,
    string: &ByteString,
) -> Result<(), AllocError>
    requires { place ≤ length list.old.items }
    ensures written { IfOk result
        (λ _. take (place + 1) list.new.items ≡ take place list.old.items ++ string.now ∷ []) }
    ensures there { OnOk result (place < length list.new.items) }
{
    if place < list.len() {
        list.as_mut_slice()[place].rewrite(alloc, string.as_slice())?;
    } else {
        list.push(string.clone()?)?;
    }
    Ok(())
}

/// Writes the byte strings at the front of a list, whose others stay behind them.
fn write_front(
    alloc: Global,
    list: &mut Vec<ByteString>,
    strings: &[ByteString],
) -> Result<(), AllocError>
    ensures written { IfOk result (λ _. take (length strings.now) list.new.items ≡ strings.now) }
    ensures there { OnOk result (length strings.now ≤ length list.new.items) }
{
    for place in 0..strings.len() {
        write_at(alloc, list, place, &strings[place])?;
    }
    Ok(())
}

/// The byte constants in force. What was in force before keeps its memory, for the constants of later blocks and runs.
#[derive(Drop)]
pub struct ByteConstants {
    /// The first of these are in force, so many as are counted; the others are memory alone.
    strings: Vec<ByteString>,
    count: usize,
    /// What the next block is written over, so that those in force stay until it is written.
    spare: Vec<ByteString>,
}

impl Model for ByteConstants {
    ghost use Rattle.std.specs.Prelude.{List, ℕ, ◌≤◌, length, take};

    ghost Value = { List (List ℕ) };

    ghost view = { λ c. take c.count c.strings.items };

    ghost invariant = { λ c. c.count ≤ length c.strings.items };
}

impl ByteConstants {
    /// No constants. They take no memory.
    pub fn new(alloc: Global) -> Self
        ensures { result ≡ [] }
    {
        ByteConstants {
            strings: Vec::new(alloc),
            count: 0,
            spare: Vec::new(alloc),
        }
    }

    /// Puts none in force. The memory stays.
    pub fn clear(&mut self)
        ensures { self.new ≡ [] }
    {
        self.count = 0;
    }

    /// The byte strings in force.
    pub fn as_slice(&self) -> &[ByteString]
        ensures { result.now ≡ self.now }
    {
        &self.strings.as_slice()[..self.count]
    }

    /// Puts others in force. Where an allocation is refused those of before stay.
    pub fn set(&mut self, alloc: Global, strings: &[ByteString]) -> Result<(), AllocError>
        ensures { MatchResult result (λ _. self.new ≡ strings.now) (λ _. self.new ≡ self.old) }
    {
        write_front(alloc, &mut self.spare, strings)?;
        mem::swap(&mut self.strings, &mut self.spare);
        self.count = strings.len();
        Ok(())
    }
}
