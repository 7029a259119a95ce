//! Sets of objects, one an opcode.

ghost use Rattle.std.specs.Prelude.{◌≡◌, None, IfErr, IfNone, IfOk, IfSome, IsFalse, IsSome, IsTrue, replicate};
ghost use Rattle.std.specs.Option.{option_copied};
ghost use Rattle.teal_table.specs.declared.opcode.Opcode.{Opcode};
ghost use Rattle.teal_table.specs.Table.{code_of};
ghost use Rattle.avm_ops.specs.FaultNames.{push_fault_name};
ghost use Rattle.avm_ops.specs.OpSets.{Has, IsFull, IsLeastMissing, object_at, with_object};

use crate::op::{BoxedOp, Op};
use std::alloc::{AllocError, Global};
use std::marker::Model;
use teal_table::Opcode;
use thiserror::Error;

/// A set of objects, one an opcode, which contracts see as the list of its 256 slots.
#[derive(Drop)]
pub struct Ops<O> {
    slots: Vec<Option<O>>,
}

impl<O> Model for Ops<O> {
    ghost use Rattle.std.specs.Prelude.{◌≡◌, length};
    ghost use Rattle.avm_ops.specs.OpSets.{Slots};

    ghost Value = { Slots O };

    ghost view = { λ s. s.slots.items };

    ghost invariant = { λ s. length s.slots.items ≡ 256 };
}

/// Why an object was not added.
#[derive(Clone, Copy, Debug, PartialEq, Eq, Error)]
#[error("{name}", name = self.name())]
pub enum PushFault {
    /// One of its opcode is there.
    Twice = 1,
}

impl PushFault {
    /// Its name.
    pub fn name(self) -> &'static str
        ensures { result.now ≡ push_fault_name self }
    {
        match self {
            PushFault::Twice => "Twice",
        }
    }
}

impl<O: Op> Ops<O> {
    /// The set without objects.
    pub fn new(alloc: Global) -> Result<Ops<O>, AllocError>
        ensures { IfOk result (λ set. set ≡ replicate 256 None) }
    {
        let mut slots = Vec::with_capacity(alloc, 256)?;
        for _code in 0..256usize {
            slots.push(None)?;
        }
        Ok(Ops { slots })
    }

    /// Adds an object, or hands it back where one of its code is there. It takes no memory.
    pub fn push(&mut self, op: O) -> Result<(), (PushFault, O)>
        ensures ok { IfOk result (λ _. (object_at self.old (code_of (O.opcode op)) ≡ None)
            × (self.new ≡ with_object self.old (code_of (O.opcode op)) op)) }
        ensures twice { IfErr result (λ e. IsSome (object_at self.old (code_of (O.opcode op)))
            × (e.1 ≡ op) × (self.new ≡ self.old)) }
    {
        let code = usize::from(op.code());
        if self.slots[code].is_some() {
            return Err((PushFault::Twice, op));
        }
        self.slots[code] = Some(op);
        Ok(())
    }

    /// The object of a code, by one look at its slot.
    pub fn get(&self, code: u8) -> Option<&O>
        ensures { option_copied result ≡ object_at self.now code }
    {
        self.slots[usize::from(code)].as_ref()
    }

    /// The object of an opcode, in a set that has one of each. It is inlined, since it stands in every step of a run.
    #[inline(always)]
    pub fn object(&self, opcode: Opcode) -> &O
        requires full { IsFull O.opcode self.now }
        ensures { O.opcode result.now ≡ opcode }
    {
        match self.get(opcode.code()) {
            Some(op) => op,
            None => unreachable!(),
        }
    }

    /// Whether an object of the opcode stands at its code.
    #[tactic(auto, using(crate::proofs::Sets::same_code))]
    fn has(&self, opcode: Opcode) -> bool
        ensures there { IsTrue result → Has O.opcode self.now opcode }
        ensures missing { IsFalse result → Has O.opcode self.now opcode → ⊥ }
    {
        match self.get(opcode.code()) {
            Some(op) => op.code() == opcode.code(),
            None => false,
        }
    }

    /// The least code of an opcode that has no object here.
    pub fn missing(&self) -> Option<u8>
        ensures none { IfNone result (IsFull O.opcode self.now) }
        ensures least { IfSome result (λ code. IsLeastMissing O.opcode self.now code) }
    {
        for code in 0..256usize {
            if let Some(opcode) = Opcode::of(code as u8) {
                if !self.has(opcode) {
                    return Some(code as u8);
                }
            }
        }
        None
    }
}

/// A set of boxed objects.
pub type OpSet = Ops<BoxedOp>;
