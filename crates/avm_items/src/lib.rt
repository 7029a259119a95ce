//! The items of a ledger that calls read and write one by one, the fields of a call, and the form in which every meaning
//! that depends on a ledger is written: as the items that it asks for, one after another (`specs/Asks.antt`). The laws of
//! that form are the contracts of `laws`, and `rule_laws` says which puts keep the rules of a ledger.
#![tactic(auto)]

mod call_data;
mod env;
mod item;
mod item_map;
mod item_value;
pub mod laws;
mod ledger_items;
pub mod rule_laws;
mod writing;

pub use call_data::{Addresses, CallData, Completion};
pub use env::Env;
pub use item::Item;
pub use item_map::ItemMap;
pub use item_value::ItemValue;
pub use ledger_items::{is_value_in, item_of};
pub use writing::{put_copies, put_items, put_open};
