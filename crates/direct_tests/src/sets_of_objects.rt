//! A set that is filled in two parts, and what it lacks between them.

use avm_objects::{Binary, Opcode, object_of};
use avm_ops::{BoxedOp, Op, OpSet, Ops, PushFault};
use std::test::Fail;

/// Whether a code is of version 2, and its instruction reads no field and no state.
fn is_of_the_first(code: u8) -> bool {
    matches!(
        code,
        0x00..=0x2b | 0x34 | 0x35 | 0x40..=0x43 | 0x48..=0x4a | 0x50..=0x52
    )
}

/// Whether a set still wants an object of a code, of all codes or of the first.
fn is_wanted(ops: &OpSet, is_last: bool, code: u8) -> bool {
    ops.get(code).is_none() && (is_last || is_of_the_first(code))
}

fn add(ops: &mut OpSet, op: Box<dyn Op>) -> Result<(), Fail> {
    match ops.push(BoxedOp { op }) {
        Ok(()) => Ok(()),
        Err(_) => Err("an object of its code is there".into()),
    }
}

fn size(ops: &OpSet) -> u64 {
    let mut count = 0u64;
    for code in 0..256usize {
        if ops.get(code as u8).is_some() {
            count = count.saturating_add(1);
        }
    }
    count
}

/// A part, whether it is all, how many objects there are then, and the least code that has none.
const PARTS: [(&str, bool, u64, Option<u8>); 2] = [
    (
        "version 2 without fields and states lacks txn",
        false,
        50,
        Some(0x31),
    ),
    ("all 76", true, 76, None),
];

/// Whether a second object of a code is handed back.
fn is_second(ops: &mut OpSet, second: Box<dyn Op>) -> bool {
    match ops.push(BoxedOp { op: second }) {
        Ok(()) => false,
        Err((fault, back)) => fault == PushFault::Twice && back.code() == 0x08,
    }
}

#[test]
fn a_set_names_the_least_code_that_it_lacks(rt: HostRuntime) -> Result<(), Fail> {
    let alloc = rt.alloc();
    let mut ops: OpSet = Ops::new(alloc)?;
    assert!(rt; ops.missing() == Some(0));
    for (name, is_last, count, missing) in PARTS {
        for code in 0..256usize {
            let Some(opcode) = Opcode::of(code as u8) else {
                continue;
            };
            if !is_wanted(&ops, is_last, code as u8) {
                continue;
            }
            let op: Box<dyn Op> = object_of!(alloc, opcode);
            add(&mut ops, op)?;
        }
        assert!(rt; size(&ops) == count && ops.missing() == missing, "{name}");
    }
    let second: Box<dyn Op> = Box::new(alloc, Binary::Add)?;
    assert!(rt; is_second(&mut ops, second));
    Ok(())
}
