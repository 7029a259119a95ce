//! Why a commit is not written.

use avm_items::Item;
use mv_chain::Late;
use teal_value::Failure;

/// Why a commit is not written, in the order of the tests.
#[derive(Drop)]
pub enum WriteFault {
    /// An item that it read has another value up to its timestamp: the least such item.
    Moved(Item),
    /// The version that a write would follow was read above it: the least such item, with that version and its mark.
    Late(Item, Late),
}

/// Why a commit is not written, that memory ran out included.
pub type WriteError = Failure<WriteFault>;
