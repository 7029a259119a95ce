//! Looks at a sealed block.

use crate::item_texts::digits_of;
use crate::store_answers::Said;
use avm_block::encode;
use avm_ledger::Ledger;
use avm_ops::Op;
use avm_replay::{Verdict, replay};
use avm_run::FullOps;
use mv_parts::Sealed;
use std::alloc::{AllocError, Global};

/// The numbers of its calls, and its bytes.
pub fn block_text(alloc: Global, sealed: &Option<Sealed>) -> Result<Said, AllocError> {
    match sealed {
        Some(sealed) => {
            let digits = hex::encode(alloc, encode(alloc, &sealed.block)?.as_slice())?;
            let numbers = sealed.numbers.as_slice();
            Ok(Said::Text(format!(in alloc; "calls {numbers:?} {digits}")?))
        }
        None => Ok(Said::Word("no block")),
    }
}

/// The ledger that its replay over a base leaves.
pub fn replay_text<O: Op>(
    alloc: Global,
    ops: &FullOps<O>,
    base: &Ledger,
    sealed: &Option<Sealed>,
) -> Result<Said, AllocError> {
    match sealed {
        Some(sealed) => match replay(alloc, base, &sealed.block, ops)? {
            Verdict::Agrees(after) => digits_of(alloc, &after).map(Said::Text),
            _ => Ok(Said::Word("does not agree")),
        },
        None => Ok(Said::Word("no block")),
    }
}
