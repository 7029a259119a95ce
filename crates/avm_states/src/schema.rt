//! How many entries a state has or may have.

/// The most entries that a schema of an application's own state allows.
pub const MAX_GLOBAL_ENTRIES: u16 = 64;

/// The most entries that a schema of an account's state allows.
pub const MAX_LOCAL_ENTRIES: u16 = 16;

/// How many uints and how many byte strings a state has or may have.
#[derive(Clone, Copy, Debug, PartialEq, Eq)]
pub struct Schema {
    pub uints: u8,
    pub bytes: u8,
}
