//! The bytes of a ledger's items and of their values: items one by one, and lists of items with their values, for whoever
//! keeps a ledger item by item. What the bytes are stands in `specs/ItemEncoding.antt` and `specs/ItemReader.antt`, what is
//! asked of an item and of its value by itself in `specs/ItemRules.antt`. The laws are the contracts of `reading_laws`.
#![tactic(auto)]

mod codec;
mod item_reading;
mod list_reading;
pub mod reading_laws;
mod value_reading;
mod writing;

pub use codec::{item_bytes, items_bytes, read_items};
pub use item_reading::item_of;
pub use value_reading::item_value_of;
