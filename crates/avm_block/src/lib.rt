//! Blocks: calls in the order of their timestamps, with how each ended. A `Block` is one by its type; `encode` writes its
//! bytes, and `decode` reads them; a `Front` is what they begin with, before the digest of the ledger after is known. What a block is and when it replays over a ledger stands in `specs/Blocks.antt`, which
//! calls it may have in `specs/AcceptedCalls.antt`, its bytes in `specs/BlockEncoding.antt` and `specs/BlockReader.antt`,
//! their laws in `reading_laws`.
#![tactic(auto)]

mod accepted_calls;
mod block;
mod block_calls;
mod block_fault;
mod call_sizes;
mod decoding;
mod encoding;
mod entry;
mod front;
pub mod header_codec;
pub mod outcome_codec;
mod past_faults;
mod places;
pub mod reading_laws;

pub use accepted_calls::{accepts, first_beyond};
pub use block::{Block, MAX_ENTRIES};
pub use block_calls::{CallsError, CallsFault, calls_fault};
pub use block_fault::{BlockError, BlockFault};
pub use decoding::decode;
pub use encoding::encode;
pub use entry::Entry;
pub use front::{Front, entry_room};
pub use past_faults::{OpenError, OpenFault, StateError, StateFault};
pub use places::outcome_has_place;
