//! Sets with an object of every opcode.

use avm_objects::filled_set;
use avm_ops::{Op, OpSet, Ops};
use avm_run::FullOps;
use std::alloc::Global;
use std::test::Fail;

/// A set that is filled as the programs fill theirs.
pub fn filled_ops(alloc: Global) -> Result<OpSet, Fail> {
    Ok(filled_set!(alloc, Err("memory is refused".into())))
}

/// A set as a full one.
pub fn full_ops<O: Op>(set: Ops<O>) -> Result<FullOps<O>, Fail> {
    match FullOps::of(set) {
        Ok(full) => Ok(full),
        Err(_lacking) => Err("an opcode has no object".into()),
    }
}
