//! What a block is to be made of, and by whom.

use avm_call::Call;
use avm_ledger::{Base, Header};
use avm_ops::{Op, Ops};
use avm_run::FullOps;
use std::alloc::Global;
use std::sync::Arc;

/// Calls that are proposed, over a ledger: an [`avm_ledger::Ledger`], or one that is shared.
#[derive(Drop)]
pub struct Draft<'a, B> {
    pub base: &'a B,
    /// The header of the block.
    pub header: Header,
    pub calls: Vec<Call>,
}

/// A draft that journals are opened on, which share its calls.
#[derive(Drop)]
pub(crate) struct SharedDraft<'a> {
    pub alloc: Global,
    pub base: &'a Arc<Base>,
    pub header: Header,
    pub calls: Arc<Vec<Call>>,
}

/// The sets of objects of those who run the calls of a draft.
#[derive(Drop)]
pub struct ThreadSets<O: Op> {
    /// One for each worker.
    pub workers: Vec<Ops<O>>,
    /// The calling thread's own.
    pub own: Ops<O>,
}

/// Those who run the calls, once it is known that no set lacks an object.
#[derive(Drop)]
pub(crate) struct Crew<O: Op> {
    pub workers: Vec<Ops<O>>,
    pub own: FullOps<O>,
}
