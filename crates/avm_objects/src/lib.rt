//! The objects of all opcodes: every family, and the macro that fills a set with an object of every opcode.
#![tactic(auto)]

ghost use Rattle.std.specs.Prelude.{◌≡◌, IfSome, Some};

pub use avm_arith::{Binary, Bits, Comparison, Equality, Joined, OfBytes, Unary, Wide};
pub use avm_flow_ops::{Block, Branch, Bytec, Intc, Literal, Scratch, Stack, Stops};
pub use avm_ops::{BoxedOp, Op, OpSet, Ops};
pub use avm_state_ops::{GlobalOp, StateRead, StateWrite, Txn};
use std::alloc::Global;
pub use teal_table::Opcode;

/// An object in a box, or `None` where there is none or memory is refused.
pub fn boxed<O: Drop>(alloc: Global, op: Option<O>) -> Option<Box<O>>
    ensures { IfSome result (λ boxed. op ≡ Some boxed.value) }
{
    match op {
        Some(op) => Box::new(alloc, op).ok(),
        None => None,
    }
}

/// A set with an object of every opcode: `filled_set!(alloc, refused)`, where the function that calls it ends with `refused`
/// if memory for the set is. Each family is an object by itself, and not in a type of all of them, which would be told apart
/// once more at each instruction.
///
/// It is no function, since boxes of objects are made only where they stay. Whether the set is full is asked of
/// [`Ops::missing`]: it lacks each object for which memory was refused.
#[macro_export]
macro_rules! filled_set {
    ($alloc:expr, $refused:expr) => {{
        let mut ops: $crate::OpSet = match $crate::Ops::new($alloc) {
            Ok(ops) => ops,
            Err(_) => return $refused,
        };
        for code in 0..256usize {
            let Some(opcode) = $crate::Opcode::of(code as u8) else {
                continue;
            };
            let op: Box<dyn $crate::Op> = $crate::object_of!($alloc, opcode);
            let _is_kept = ops.push($crate::BoxedOp { op }).is_ok();
        }
        ops
    }};
}

/// The object of an opcode in a box, or the next turn of the loop where no family has one or memory is refused. The list of
/// families stands here.
#[macro_export]
macro_rules! object_of {
    ($alloc:expr, $opcode:expr) => {
        $crate::first_of!(
            $alloc, $opcode, Binary, Bits, Comparison, Equality, Joined, OfBytes, Unary, Wide,
            Block, Branch, Bytec, Intc, Literal, Scratch, Stack, Stops, GlobalOp, StateRead,
            StateWrite, Txn
        )
    };
}

/// The object of an opcode in a box, of the first of these families that has it, as `object_of` gives it.
#[macro_export]
macro_rules! first_of {
    ($alloc:expr, $opcode:expr, $($family:ident),+) => {
        $(if let Some(op) = $crate::boxed($alloc, $crate::$family::of($opcode)) {
            op
        } else)+ {
            continue;
        }
    };
}
