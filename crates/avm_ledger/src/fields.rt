//! Fields read from the front of bytes: big-endian numbers, and byte strings behind their lengths.

ghost use Rattle.std.specs.Prelude.{◌≡◌, ◌<◌, ◌==◌, ◌^◌, length, IfOk};
ghost use Rattle.std.specs.Int.{w8, w16, w32, w64};
ghost use Rattle.teal_value.specs.Answer.{Gives};
ghost use Rattle.avm_ledger.specs.FieldReader.{address_at, bytes_at, number_at, schema_at, short_string_at, string_at};

use avm_states::Schema;
use std::marker::Model;
use teal_value::{Address, Failure};

/// Bytes that are read field by field from the front, which contracts see as the list of those that are left. Each call
/// answers a field and the bytes behind it. Where the bytes end in the field, it answers the fault that the caller names.
/// No call takes memory.
#[derive(Debug, Drop)]
pub struct Fields<'a> {
    bytes: &'a [u8],
}

impl<'a> Model for Fields<'a> {
    ghost use Rattle.std.specs.Prelude.{List, ℕ};

    ghost Value = { List ℕ };

    ghost view = { λ f. f.bytes.now };
}

impl<'a> Fields<'a> {
    /// All of the bytes.
    pub fn new(bytes: &'a [u8]) -> Self
        ensures { result ≡ bytes.now }
    {
        Fields { bytes }
    }

    /// How many bytes are left.
    pub fn len(&self) -> usize
        ensures { result ≡ length self.now }
    {
        self.bytes.len()
    }

    /// Whether no bytes are left.
    pub fn is_empty(&self) -> bool
        ensures { result ≡ (length self.now == 0) }
    {
        self.bytes.is_empty()
    }

    /// So many bytes.
    pub fn take<F: Copy>(self, count: usize, truncated: F) -> Result<(&'a [u8], Self), Failure<F>>
        ensures value { Gives (λ x. (x.0.now, x.1)) result (bytes_at truncated count self.entry) }
        ensures len { IfOk result (λ x. length x.0.now ≡ count) }
    {
        if self.bytes.len() < count {
            return Err(Failure::Fault(truncated));
        }
        let (front, bytes) = self.bytes.split_at(count);
        Ok((front, Fields { bytes }))
    }

    /// A number of one byte.
    pub fn u8<F: Copy>(self, truncated: F) -> Result<(u8, Self), Failure<F>>
        ensures value { Gives (λ x. x) result (number_at truncated w8 self.entry) }
        ensures fits { IfOk result (λ x. x.0 < 256) }
    {
        let (front, rest) = self.take(1, truncated)?;
        Ok((front[0], rest))
    }

    /// A number of two bytes.
    pub fn u16<F: Copy>(self, truncated: F) -> Result<(u16, Self), Failure<F>>
        ensures value { Gives (λ x. x) result (number_at truncated w16 self.entry) }
        ensures fits { IfOk result (λ x. x.0 < 2 ^ 16) }
    {
        let (front, rest) = self.take(2, truncated)?;
        Ok((u16::from_be_bytes([front[0], front[1]]), rest))
    }

    /// A number of four bytes.
    pub fn u32<F: Copy>(self, truncated: F) -> Result<(u32, Self), Failure<F>>
        ensures value { Gives (λ x. x) result (number_at truncated w32 self.entry) }
        ensures fits { IfOk result (λ x. x.0 < 2 ^ 32) }
    {
        let (front, rest) = self.take(4, truncated)?;
        let number = u32::from_be_bytes([front[0], front[1], front[2], front[3]]);
        Ok((number, rest))
    }

    /// A number of eight bytes.
    pub fn u64<F: Copy>(self, truncated: F) -> Result<(u64, Self), Failure<F>>
        ensures value { Gives (λ x. x) result (number_at truncated w64 self.entry) }
        ensures fits { IfOk result (λ x. x.0 < 2 ^ 64) }
    {
        let (front, rest) = self.take(8, truncated)?;
        let number = u64::from_be_bytes([
            front[0], front[1], front[2], front[3], front[4], front[5], front[6], front[7],
        ]);
        Ok((number, rest))
    }

    /// A byte string behind its length of one byte.
    pub fn short_string<F: Copy>(self, truncated: F) -> Result<(&'a [u8], Self), Failure<F>>
        ensures { Gives (λ x. (x.0.now, x.1)) result (short_string_at truncated self.entry) }
    {
        let (length, rest) = self.u8(truncated)?;
        rest.take(usize::from(length), truncated)
    }

    /// A byte string behind its length of two bytes.
    pub fn string<F: Copy>(self, truncated: F) -> Result<(&'a [u8], Self), Failure<F>>
        ensures { Gives (λ x. (x.0.now, x.1)) result (string_at truncated self.entry) }
    {
        let (length, rest) = self.u16(truncated)?;
        rest.take(usize::from(length), truncated)
    }

    /// 32 bytes.
    pub fn array<F: Copy>(self, truncated: F) -> Result<([u8; 32], Self), Failure<F>>
        ensures { Gives (λ x. x) result (bytes_at truncated 32 self.entry) }
    {
        match self.bytes.split_first_chunk::<32>() {
            Some((front, bytes)) => Ok((*front, Fields { bytes })),
            None => Err(Failure::Fault(truncated)),
        }
    }

    /// An account's address.
    pub fn address<F: Copy>(self, truncated: F) -> Result<(Address, Self), Failure<F>>
        ensures { Gives (λ x. x) result (address_at truncated self.entry) }
    {
        let (bytes, rest) = self.array(truncated)?;
        Ok((Address(bytes), rest))
    }

    /// A schema.
    pub fn schema<F: Copy>(self, truncated: F) -> Result<(Schema, Self), Failure<F>>
        ensures value { Gives (λ x. x) result (schema_at truncated self.entry) }
        ensures fits { IfOk result (λ x. x.0.uints < 256) }
    {
        let (uints, rest) = self.u8(truncated)?;
        let (bytes, rest) = rest.u8(truncated)?;
        Ok((Schema { uints, bytes }, rest))
    }
}
