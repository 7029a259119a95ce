//! Programs of applications.

ghost use Rattle.std.specs.Prelude.{◌≡◌, IfOk, Ok};
ghost use Rattle.teal_check.specs.WellFormed.{checked};

use std::alloc::AllocError;
use std::marker::Model;
use teal_check::Program;

/// A program of an application, decoded once and shared by all copies, which contracts see as its bytes.
#[derive(Debug)]
pub struct StoredProgram {
    program: Program,
}

/// Written out, so that how one is dropped is proved here once, and not in each crate that owns one.
impl Drop for StoredProgram {
    #[inline]
    fn drop(self) {
        let StoredProgram { program: _ } = self;
    }
}

impl Model for StoredProgram {
    ghost use Rattle.std.specs.Prelude.{◌≡◌, List, Ok, ℕ};
    ghost use Rattle.teal_check.specs.WellFormed.{checked};

    ghost Value = { List ℕ };

    ghost view = { λ s. s.program.bytes };

    ghost invariant = { λ s. checked s.program.bytes ≡ Ok s.program };
}

impl StoredProgram {
    /// The program, as an application has it. It takes no memory.
    pub fn new(program: Program) -> StoredProgram
        ensures { result ≡ program.bytes }
    {
        let _bytes = program.bytes();
        StoredProgram { program }
    }

    /// The program with its instructions.
    pub fn program(&self) -> &Program
        ensures bytes { result.now.bytes ≡ self.now }
        ensures checked { checked self.now ≡ Ok result.now }
    {
        &self.program
    }

    /// The program's bytes.
    pub fn as_slice(&self) -> &[u8]
        ensures { result.now ≡ self.now }
    {
        self.program.bytes()
    }

    /// The same program. It shares the bytes and instructions.
    pub fn clone(&self) -> Result<StoredProgram, AllocError>
        ensures { IfOk result (λ copy. copy ≡ self.now) }
    {
        let program = self.program.clone()?;
        Ok(StoredProgram { program })
    }
}
