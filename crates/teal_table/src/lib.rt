//! The opcode table, its fields and the codes that this machine leaves out (AVM specification, version 2 and 3 opcodes,
//! application mode). One row is the source for names, immediates, cost, version and operand types of every other crate.
//! `specs/Table.antt` and `specs/Fields.antt` are the tables as contracts see them.
#![tactic(auto)]

mod global_fields;
mod opcode;
mod outside;
mod shape;
mod table;
mod table_row;
mod txn_fields;

pub use global_fields::{GlobalField, global_field, global_field_by_name, global_field_named};
pub use opcode::Opcode;
pub use outside::left_out;
pub use shape::{Shape, ValueKind, Version};
pub use table::{by_name, opcode_in, opcode_named, row};
pub use table_row::Row;
pub use txn_fields::{TxnField, txn_field, txn_field_by_name, txn_field_named};
