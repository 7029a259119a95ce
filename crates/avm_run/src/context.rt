//! What runs have in common.

use crate::full_ops::FullOps;
use avm_ledger::Header;
use avm_ops::Op;
use std::alloc::Global;

/// What every call of a block is run with: lent for the whole run.
#[derive(Drop)]
pub struct RunContext<'a, O: Op> {
    pub alloc: Global,
    pub ops: &'a FullOps<O>,
    pub header: &'a Header,
}
