//! Lists that contracts see as lists, without the memory that holds them.

ghost use Rattle.std.specs.Prelude.{◌≡◌, ◌<◌, ◌↔◌, [], IsTrue, length, IfNone, IfOk, IfSome, MatchResult};

use crate::list_memory::write_over;
use arrayvec::ArrayVec;
use std::alloc::{AllocError, Global};
use std::marker::Model;

/// A list of bytes. Of a slice, up to 16 stand in the value itself and take no memory; a vector that is taken over stays the
/// vector that it is.
#[derive(Debug)]
pub struct ByteString {
    bytes: Bytes,
}

/// Written out, so that whoever owns one drops it by one call and not part by part.
impl Drop for ByteString {
    #[inline]
    fn drop(self) {
        let ByteString { bytes: _ } = self;
    }
}

/// Where bytes stand.
#[derive(Debug, Drop)]
enum Bytes {
    Here(ArrayVec<u8, 16>),
    Apart(Vec<u8>),
}

/// The bytes in place, if they are few enough.
fn here(bytes: &[u8]) -> Option<ArrayVec<u8, 16>>
    ensures all { IfSome result (λ here. here.items ≡ bytes.now) }
    ensures many { IfNone result (16 < length bytes.now) }
{
    let mut here = ArrayVec::new();
    match here.try_extend_from_slice(bytes) {
        Ok(()) => Some(here),
        Err(_) => None,
    }
}

impl Model for ByteString {
    ghost use Rattle.std.specs.Prelude.{List, ℕ};
    ghost use Rattle.teal_value.specs.ByteLists.{bytes_in};

    ghost Value = { List ℕ };

    ghost view = { λ b. bytes_in b.bytes };
}

impl ByteString {
    /// No bytes.
    pub fn new() -> Self
        ensures { result ≡ [] }
    {
        ByteString {
            bytes: Bytes::Here(ArrayVec::new()),
        }
    }

    /// A copy of the bytes. It takes no memory where they are at most 16.
    pub fn from_slice(alloc: Global, bytes: &[u8]) -> Result<Self, AllocError>
        ensures { IfOk result (λ copy. copy ≡ bytes.now) }
    {
        if let Some(here) = here(bytes) {
            return Ok(ByteString {
                bytes: Bytes::Here(here),
            });
        }
        let bytes = Vec::from_slice(alloc, bytes)?;
        Ok(ByteString::from_vec(bytes))
    }

    /// The vector's bytes, without a copy.
    pub fn from_vec(bytes: Vec<u8>) -> Self
        ensures { result ≡ bytes.items }
    {
        ByteString {
            bytes: Bytes::Apart(bytes),
        }
    }

    /// The bytes as a vector, without a copy where they stand in one.
    pub fn into_vec(self, alloc: Global) -> Result<Vec<u8>, AllocError>
        ensures { IfOk result (λ bytes. bytes.items ≡ self) }
    {
        let ByteString { bytes } = self;
        match bytes {
            Bytes::Here(bytes) => Vec::from_slice(alloc, bytes.as_slice()),
            Bytes::Apart(bytes) => Ok(bytes),
        }
    }

    /// Becomes other bytes, in the memory of these where they fit. Where memory is refused these stay.
    #[inline(always)]
    pub fn rewrite(&mut self, alloc: Global, bytes: &[u8]) -> Result<(), AllocError>
        ensures { MatchResult result (λ _. self.new ≡ bytes.now) (λ _. self.new ≡ self.old) }
    {
        match &mut self.bytes {
            Bytes::Here(_) => {
                *self = ByteString::from_slice(alloc, bytes)?;
                Ok(())
            }
            Bytes::Apart(memory) => write_over(memory, bytes),
        }
    }

    /// The bytes, lent.
    #[inline]
    pub fn as_slice(&self) -> &[u8]
        ensures { result.now ≡ self.now }
    {
        match &self.bytes {
            Bytes::Here(bytes) => bytes.as_slice(),
            Bytes::Apart(bytes) => bytes.as_slice(),
        }
    }

    /// How many bytes there are.
    pub fn len(&self) -> usize
        ensures { result ≡ length self.now }
    {
        self.as_slice().len()
    }

    /// Whether there are none.
    pub fn is_empty(&self) -> bool
        ensures { IsTrue result ↔ (self.now ≡ []) }
    {
        self.as_slice().is_empty()
    }

    /// A copy of the bytes.
    pub fn clone(&self) -> Result<Self, AllocError>
        ensures { IfOk result (λ copy. copy ≡ self.now) }
    {
        match &self.bytes {
            Bytes::Here(bytes) => match here(bytes.as_slice()) {
                Some(here) => Ok(ByteString {
                    bytes: Bytes::Here(here),
                }),
                None => unreachable!(),
            },
            Bytes::Apart(bytes) => Ok(ByteString::from_vec(bytes.clone()?)),
        }
    }
}

/// A list of numbers, as a constant block holds it.
#[derive(Debug, Drop)]
pub struct Uints {
    numbers: Vec<u64>,
}

impl Model for Uints {
    ghost use Rattle.std.specs.Prelude.{List, ℕ};

    ghost Value = { List ℕ };

    ghost view = { λ u. u.numbers.items };
}

impl Uints {
    /// The vector's numbers, without a copy.
    pub fn from_vec(numbers: Vec<u64>) -> Self
        ensures { result ≡ numbers.items }
    {
        Uints { numbers }
    }

    /// The numbers, lent.
    pub fn as_slice(&self) -> &[u64]
        ensures { result.now ≡ self.now }
    {
        self.numbers.as_slice()
    }

    /// The numbers, without a copy.
    pub fn into_vec(self) -> Vec<u64>
        ensures { result.items ≡ self }
    {
        self.numbers
    }
}

/// A list of byte strings, as a constant block holds it.
#[derive(Debug, Drop)]
pub struct ByteStrings {
    strings: Vec<ByteString>,
}

impl Model for ByteStrings {
    ghost use Rattle.std.specs.Prelude.{List, ℕ};

    ghost Value = { List (List ℕ) };

    ghost view = { λ b. b.strings.items };
}

impl ByteStrings {
    /// The vector's byte strings, without a copy.
    pub fn from_vec(strings: Vec<ByteString>) -> Self
        ensures { result ≡ strings.items }
    {
        ByteStrings { strings }
    }

    /// The byte strings, lent.
    pub fn as_slice(&self) -> &[ByteString]
        ensures { result.now ≡ self.now }
    {
        self.strings.as_slice()
    }

    /// The byte strings, without a copy.
    pub fn into_vec(self) -> Vec<ByteString>
        ensures { result.items ≡ self }
    {
        self.strings
    }
}
