//! Applications.

ghost use Rattle.std.specs.Prelude.{◌≡◌};

use crate::shared_application::SharedApplication;
use crate::stored_program::StoredProgram;
use avm_states::{Schema, State};
use std::alloc::AllocError;
use teal_value::Address;

/// An application, without its global state.
#[derive(Debug, Drop)]
pub struct Application {
    /// The account that created it.
    pub creator: Address,
    /// The program of every call but one that clears.
    pub approval: StoredProgram,
    /// The clear state program.
    pub clear: StoredProgram,
    /// The limit on its global state.
    pub global_schema: Schema,
    /// The limit on each of its local states.
    pub local_schema: Schema,
}

/// An application with its global state.
#[derive(Debug, Drop)]
pub struct StoredApplication {
    pub row: SharedApplication,
    pub state: State,
}

impl Clone for StoredApplication {
    ghost is_clone = { λ app copy. copy ≡ app };

    fn clone(&self) -> Result<StoredApplication, AllocError> {
        Ok(StoredApplication {
            row: self.row.clone()?,
            state: State::clone(&self.state)?,
        })
    }
}
