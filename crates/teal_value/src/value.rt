//! Values of the stack, of the scratch space and of states.

ghost use Rattle.std.specs.Prelude.{◌≡◌, IfOk};

use crate::byte_string::ByteString;
use std::alloc::AllocError;

/// A value of the machine (AVM specification, "The Stack"): a `uint64`, or a byte string of at most 4096 bytes.
#[derive(Debug, Drop)]
pub enum Value {
    Uint(u64),
    Bytes(ByteString),
}

impl Value {
    /// A copy of the value, in memory of its own where it is a byte string.
    pub fn clone(&self) -> Result<Value, AllocError>
        ensures { IfOk result (λ copy. copy ≡ self.now) }
    {
        match self {
            Value::Uint(number) => Ok(Value::Uint(*number)),
            Value::Bytes(bytes) => Ok(Value::Bytes(bytes.clone()?)),
        }
    }
}

impl Default for Value {
    ghost use Rattle.teal_value.specs.declared.value.Value.TheVariants.{Uint};

    ghost is_default = { λ v. v ≡ Uint 0 };

    fn default() -> Self {
        Value::Uint(0)
    }
}

impl Clone for Value {
    ghost is_clone = { λ value copy. copy ≡ value };

    fn clone(&self) -> Result<Value, AllocError> {
        Value::clone(self)
    }
}

impl PartialEq for Value {
    ghost use Rattle.std.specs.Cmp.{partial_equiv_from_equiv};
    ghost use Rattle.teal_value.specs.SameValues.{is_same};
    ghost use Rattle.teal_value.specs.SameValueLaws.{is_same_equiv};

    ghost eq = { is_same };

    ghost laws = { partial_equiv_from_equiv is_same_equiv };

    fn eq(&self, other: &Value) -> bool {
        match (self, other) {
            (Value::Uint(number), Value::Uint(other)) => number == other,
            (Value::Bytes(bytes), Value::Bytes(other)) => bytes.as_slice() == other.as_slice(),
            _ => false,
        }
    }
}

impl Eq for Value {
    ghost use Rattle.teal_value.specs.SameValueLaws.{is_same_equiv};

    ghost laws = { is_same_equiv };
}
