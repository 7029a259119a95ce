//! Why fields make no call.

ghost use Rattle.std.specs.Prelude.{◌≡◌};
ghost use Rattle.avm_call.specs.FaultNames.{call_fault_name};
ghost use Rattle.avm_call.specs.FaultNumbers.{call_fault_number};

use std::fmt;
use teal_check::CheckFault;
use teal_value::Failure;
use thiserror::Error;

/// The first rule of calls that fields break, in this order.
#[derive(Clone, Copy, Debug, PartialEq, Eq, Error)]
pub enum CallFault {
    /// More than 4 accounts.
    Accounts,
    /// More than 16 arguments.
    Args,
    /// Arguments of more than 2048 bytes in all.
    ArgBytes,
    /// More than 2 foreign applications.
    Foreign,
    /// A note of more than 1024 bytes.
    Note,
    /// A creation or an update that lacks a program.
    ProgramsMissing,
    /// Another call that has a program.
    ProgramsGiven,
    /// A creation whose global schema has room for more than 64 entries or its local schema for more than 16, or another
    /// call with a schema.
    SchemaSize,
    /// A creation that clears.
    ClearOnCreate,
    /// A program that breaks a rule of programs; the approval program is tested before the clear state program.
    Program(CheckFault),
}

impl fmt::Display for CallFault {
    fn fmt<W: fmt::Write>(&self, f: &mut fmt::Formatter<W>) -> fmt::Result {
        f.write_str(self.name())
    }
}

impl CallFault {
    /// Its number, from 1: not that of its place in the order of the tests.
    pub fn number(self) -> u8
        ensures { result ≡ call_fault_number self }
    {
        match self {
            CallFault::Accounts => 1,
            CallFault::Args => 2,
            CallFault::ArgBytes => 3,
            CallFault::Foreign => 4,
            CallFault::ProgramsMissing => 5,
            CallFault::ProgramsGiven => 6,
            CallFault::SchemaSize => 7,
            CallFault::ClearOnCreate => 8,
            CallFault::Program(_fault) => 9,
            CallFault::Note => 10,
        }
    }

    /// Its name, as commands print it.
    pub fn name(self) -> &'static str
        ensures { result.now ≡ call_fault_name self }
    {
        match self {
            CallFault::Accounts => "Accounts",
            CallFault::Args => "Args",
            CallFault::ArgBytes => "ArgBytes",
            CallFault::Foreign => "Foreign",
            CallFault::Note => "Note",
            CallFault::ProgramsMissing => "ProgramsMissing",
            CallFault::ProgramsGiven => "ProgramsGiven",
            CallFault::SchemaSize => "SchemaSize",
            CallFault::ClearOnCreate => "ClearOnCreate",
            CallFault::Program(_fault) => "Program",
        }
    }
}

/// A [`CallFault`], or that memory ran out.
pub type CallError = Failure<CallFault>;
