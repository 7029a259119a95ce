//! Constants and labels, in the order in which a text brings them.

ghost use Rattle.std.specs.Prelude.{◌≡◌, ◌∷◌, ◌++◌, [], None, length, map, OnOk, IfOk};
ghost use Rattle.std.specs.List.{position_or_len};
ghost use Rattle.std.specs.Map.{lookup};
ghost use Rattle.std.specs.Str.{bytes_eq};
ghost use Rattle.teal_source.specs.Statements.{with_new};

use indexmap::{IndexMap, IndexSet};
use std::alloc::{AllocError, Global};
use std::marker::Model;
use teal_value::ByteString;

/// Byte strings, each once, in the order in which they came.
#[derive(Drop)]
pub(crate) struct Strings {
    set: IndexSet<Vec<u8>>,
}

impl Model for Strings {
    ghost use Rattle.std.specs.Prelude.{List, ℕ, map};

    ghost Value = { List (List ℕ) };

    ghost view = { λ s. map (λ v. v.items) s.set.keys };
}

impl Strings {
    pub fn new(alloc: Global) -> Self
        ensures { result ≡ [] }
    {
        Strings {
            set: IndexSet::new(alloc),
        }
    }

    pub fn insert(&mut self, alloc: Global, bytes: &[u8]) -> Result<(), AllocError>
        ensures { OnOk result (self.new ≡ with_new bytes_eq self.old bytes.now) }
    {
        let value = Vec::from_slice(alloc, bytes)?;
        self.set.insert(value)?;
        Ok(())
    }

    /// Where a byte string stands, or their number where it doesn't.
    pub fn index_of(&self, bytes: &[u8]) -> usize
        ensures { result ≡ position_or_len (bytes_eq bytes.now) self.now }
    {
        match self.set.get_index_of(bytes) {
            Some(index) => index,
            None => self.set.len(),
        }
    }

    pub fn len(&self) -> usize
        ensures { result ≡ length self.now }
    {
        self.set.len()
    }

    pub fn to_vec(&self, alloc: Global) -> Result<Vec<ByteString>, AllocError>
        ensures { IfOk result (λ v. v.items ≡ self.now) }
    {
        copies(alloc, self.set.as_slice())
    }
}

fn copies(alloc: Global, values: &[Vec<u8>]) -> Result<Vec<ByteString>, AllocError>
    ensures { IfOk result (λ copies. copies.items ≡ map (λ v. v.items) values.now) }
{
    let mut copies = Vec::new(alloc);
    for bytes in values {
        copies.push(ByteString::from_slice(alloc, bytes)?)?;
    }
    Ok(copies)
}

/// Labels, with the number of the instruction that each stands before.
#[derive(Drop)]
pub(crate) struct Labels {
    table: IndexMap<Vec<u8>, usize>,
}

impl Model for Labels {
    ghost use Rattle.std.specs.Prelude.{List, ℕ, map};

    ghost Value = { List (List ℕ × ℕ) };

    ghost view = { λ l. map (λ e. (e.0.items, e.1)) l.table.entries };
}

impl Labels {
    pub fn new(alloc: Global) -> Self
        ensures { result ≡ [] }
    {
        Labels {
            table: IndexMap::new(alloc),
        }
    }

    pub fn insert(&mut self, alloc: Global, name: &[u8], number: usize) -> Result<(), AllocError>
        requires { lookup (bytes_eq name.now) self.old ≡ None }
        ensures { OnOk result (self.new ≡ self.old ++ (name.now, number) ∷ []) }
    {
        let key = Vec::from_slice(alloc, name)?;
        self.table.insert(key, number)?;
        Ok(())
    }

    pub fn number_of(&self, name: &[u8]) -> Option<usize>
        ensures { result ≡ lookup (bytes_eq name.now) self.now }
    {
        self.table.get(name).copied()
    }
}
