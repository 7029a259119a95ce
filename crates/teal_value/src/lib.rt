//! What every other crate of the virtual machine speaks of: values, byte strings, keys of states, addresses, the faults
//! of a program, and the form of an answer that may be a fault or a refused allocation (`specs/Answer.antt`).
#![tactic(auto)]

mod address;
mod address_encoding;
mod base32;
mod byte_string;
mod failure;
mod fault;
mod list_memory;
mod state_key;
mod thin_bytes;
mod value;

pub use address::Address;
pub use address_encoding::{
    AddressFault, address_has_one_text, address_of_bytes, address_of_text, address_text,
};
pub use base32::{
    BadText, base32_decode, base32_decode_bytes, base32_encode, base32_has_two_encodings,
};
pub use byte_string::{ByteString, ByteStrings, Uints};
pub use failure::Failure;
pub use fault::Fault;
pub use list_memory::write_over;
pub use state_key::{MAX_KEY_BYTES, StateKey};
pub use thin_bytes::ThinBytes;
pub use value::Value;
