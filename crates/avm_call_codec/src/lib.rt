//! The bytes of calls: [`CallCodec`] reads and writes the fields of an application call. What the bytes are stands in
//! `specs/CallEncoding.antt` and `specs/CallReader.antt`, their laws are the contracts of `reading_laws`.
#![tactic(auto)]

mod call_data_fault;
mod codec;
mod groups;
mod reading;
pub mod reading_laws;
mod writing;

pub use call_data_fault::{CallDataError, CallDataFault};
pub use codec::CallCodec;
