//! Byte strings that most values lack.

ghost use Rattle.std.specs.Prelude.{◌≡◌, ◌↔◌, [], IsTrue, IfOk};

use crate::byte_string::ByteString;
use std::alloc::{AllocError, Global};
use std::marker::Model;

/// A list of bytes that takes one word where it stands. None take no memory, and others stand in memory of their own, so
/// it is for what is mostly absent.
#[derive(Debug, Drop)]
pub struct ThinBytes {
    bytes: Option<Box<ByteString>>,
}

impl Model for ThinBytes {
    ghost use Rattle.std.specs.Prelude.{List, ℕ};
    ghost use Rattle.teal_value.specs.ByteLists.{bytes_apart};

    ghost Value = { List ℕ };

    ghost view = { λ b. bytes_apart b.bytes };
}

impl ThinBytes {
    /// No bytes.
    pub fn new() -> Self
        ensures { result ≡ [] }
    {
        ThinBytes { bytes: None }
    }

    /// A copy of the bytes. It takes no memory where there are none.
    #[inline]
    pub fn from_slice(alloc: Global, bytes: &[u8]) -> Result<Self, AllocError>
        ensures { IfOk result (λ copy. copy ≡ bytes.now) }
    {
        if bytes.is_empty() {
            return Ok(ThinBytes::new());
        }
        ThinBytes::from_bytes(alloc, ByteString::from_slice(alloc, bytes)?)
    }

    /// These bytes. It takes no memory where there are none.
    pub fn from_bytes(alloc: Global, bytes: ByteString) -> Result<Self, AllocError>
        ensures { IfOk result (λ thin. thin ≡ bytes) }
    {
        if bytes.is_empty() {
            return Ok(ThinBytes::new());
        }
        Ok(ThinBytes {
            bytes: Some(Box::new(alloc, bytes)?),
        })
    }

    /// The bytes, lent.
    pub fn as_slice(&self) -> &[u8]
        ensures { result.now ≡ self.now }
    {
        match &self.bytes {
            None => &[],
            Some(bytes) => bytes.as_slice(),
        }
    }

    /// Whether there are none.
    pub fn is_empty(&self) -> bool
        ensures { IsTrue result ↔ (self.now ≡ []) }
    {
        self.as_slice().is_empty()
    }
}
