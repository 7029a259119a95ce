//! How many entries of each kind a state has.

ghost use Rattle.std.specs.Prelude.{◌≡◌, ◌+◌, ◌<◌, ◌^◌, MatchOption, false, true};
ghost use Rattle.std.specs.Option.{option_copied};
ghost use Rattle.avm_states.specs.Schemas.{count_with, is_within, no_entries, uncounted};

use crate::schema::Schema;
use std::marker::Model;
use teal_value::Value;

/// How many uints and how many byte strings a state has, which contracts see as a schema that allows just those.
///
/// A state can have more entries than any schema allows: a call's changes to it are put one after another.
#[derive(Clone, Copy, Debug)]
pub struct EntryCounts {
    uints: usize,
    bytes: usize,
}

impl Model for EntryCounts {
    ghost use Rattle.avm_states.specs.declared.schema.Schema.{Schema};

    ghost Value = { Schema };

    ghost view = { λ c. record { uints = c.uints; bytes = c.bytes } };

    ghost inverse = { λ n. record { uints = n.uints; bytes = n.bytes } };
}

impl EntryCounts {
    /// Those of no entries.
    pub fn none() -> Self
        ensures { result ≡ no_entries }
    {
        EntryCounts { uints: 0, bytes: 0 }
    }

    /// How many uints there are.
    pub fn uints(self) -> usize
        ensures { result ≡ self.uints }
    {
        self.uints
    }

    /// How many byte strings there are.
    pub fn bytes(self) -> usize
        ensures { result ≡ self.bytes }
    {
        self.bytes
    }

    /// As many as a schema allows.
    pub fn from_schema(schema: Schema) -> Self
        ensures { result ≡ schema }
    {
        EntryCounts {
            uints: usize::from(schema.uints),
            bytes: usize::from(schema.bytes),
        }
    }

    /// Those of one value.
    pub fn of(value: &Value) -> EntryCounts
        ensures { result ≡ count_with value.now no_entries }
    {
        match value {
            Value::Uint(_) => EntryCounts { uints: 1, bytes: 0 },
            Value::Bytes(_) => EntryCounts { uints: 0, bytes: 1 },
        }
    }

    /// The counts with one value more, if they keep to the limit.
    pub fn with_within(self, value: &Value, limit: Schema) -> Option<EntryCounts>
        ensures { MatchOption result
            (is_within (count_with value.now self) limit ≡ false)
            (λ after. (after ≡ count_with value.now self) × (is_within after limit ≡ true)) }
    {
        let EntryCounts { uints, bytes } = self;
        let (most_uints, most_bytes) = (usize::from(limit.uints), usize::from(limit.bytes));
        match value {
            Value::Uint(_) if uints < most_uints && bytes <= most_bytes => Some(EntryCounts {
                uints: uints + 1,
                bytes,
            }),
            Value::Bytes(_) if uints <= most_uints && bytes < most_bytes => Some(EntryCounts {
                uints,
                bytes: bytes + 1,
            }),
            _ => None,
        }
    }

    // Two counts together.
    pub(crate) fn and(self, more: EntryCounts) -> EntryCounts
        requires uints { self.uints + more.uints < 2 ^ 64 }
        requires bytes { self.bytes + more.bytes < 2 ^ 64 }
        ensures { result
            ≡ record { uints = self.uints + more.uints; bytes = self.bytes + more.bytes } }
    {
        EntryCounts {
            uints: self.uints + more.uints,
            bytes: self.bytes + more.bytes,
        }
    }

    /// The counts without a value, if one is there.
    pub fn without(self, value: Option<&Value>) -> EntryCounts
        ensures { result ≡ uncounted (option_copied value.entry) self }
    {
        let EntryCounts { uints, bytes } = self;
        match value {
            None => self,
            Some(Value::Uint(_)) => EntryCounts {
                uints: uints.saturating_sub(1),
                bytes,
            },
            Some(Value::Bytes(_)) => EntryCounts {
                uints,
                bytes: bytes.saturating_sub(1),
            },
        }
    }
}
