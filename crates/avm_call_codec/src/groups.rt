//! The fields of a call in four groups, as they stand one after another in its bytes.

use avm_items::{Addresses, Completion};
use avm_states::Schema;
use teal_value::{Address, ByteString, ByteStrings, ThinBytes, Uints};

/// Who calls, for what fee, in which rounds, and with which note.
#[derive(Drop)]
pub(crate) struct Terms {
    pub sender: Address,
    pub fee: u64,
    pub first_valid: u64,
    pub last_valid: u64,
    pub note: ByteString,
}

/// What is called, and how the call completes.
#[derive(Drop)]
pub(crate) struct Target {
    pub lease: [u8; 32],
    pub rekey_to: Address,
    pub application: u64,
    pub completion: Completion,
}

/// What the program may look at.
#[derive(Drop)]
pub(crate) struct Lists {
    pub arguments: ByteStrings,
    pub accounts: Addresses,
    pub foreign_applications: Uints,
}

/// What a creation or an update brings.
#[derive(Drop)]
pub(crate) struct Programs {
    pub approval: ThinBytes,
    pub clear: ThinBytes,
    pub global_schema: Schema,
    pub local_schema: Schema,
}
