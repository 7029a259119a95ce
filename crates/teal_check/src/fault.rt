//! Why bytes are no program.

ghost use Rattle.std.specs.Prelude.{◌≡◌};
ghost use Rattle.teal_check.specs.FaultNames.{check_fault_name};
ghost use Rattle.teal_check.specs.FaultNumbers.{check_fault_number};

use std::fmt;
use teal_code::CodeFault;
use teal_value::Failure;
use thiserror::Error;

/// The first rule of programs that bytes break. A place is that of the instruction that breaks it.
#[derive(Clone, Copy, Debug, PartialEq, Eq, Error)]
pub enum CheckFault {
    /// The version is neither 2 nor 3.
    Version,
    /// There are no bytes, or more than 1024.
    Length,
    /// No instruction is read at the place, or no version at place 0.
    Code { place: u16, fault: CodeFault },
    /// The opcode is one of the public table that this machine leaves out.
    OutOfProfile { place: u16 },
    /// A branch's offset is above 32767, which the public encoding reads as a backward branch.
    Backward { place: u16 },
    /// A branch's target is neither an instruction's place nor the end.
    NotAligned { place: u16 },
    /// A branch's target lies behind the end.
    PastEnd { place: u16 },
    /// The costs of the instructions add up to more than 700.
    Cost,
    /// The opcode has no such field.
    UnknownField { place: u16 },
}

impl fmt::Display for CheckFault {
    fn fmt<W: fmt::Write>(&self, f: &mut fmt::Formatter<W>) -> fmt::Result {
        f.write_str(self.name())
    }
}

impl CheckFault {
    /// Its number, from 1: those of the rules do not follow the order in which they are tested.
    pub fn number(self) -> u8
        ensures { result ≡ check_fault_number self }
    {
        match self {
            CheckFault::Version => 1,
            CheckFault::Length => 2,
            CheckFault::Code { .. } => 3,
            CheckFault::OutOfProfile { .. } => 4,
            CheckFault::Backward { .. } => 5,
            CheckFault::NotAligned { .. } => 6,
            CheckFault::PastEnd { .. } => 7,
            CheckFault::Cost => 8,
            CheckFault::UnknownField { .. } => 9,
        }
    }

    /// Its name, as commands print it: of a fault of reading, that fault's.
    pub fn name(self) -> &'static str
        ensures { result.now ≡ check_fault_name self }
    {
        match self {
            CheckFault::Version => "Version",
            CheckFault::Length => "Length",
            CheckFault::Code { fault, .. } => fault.name(),
            CheckFault::OutOfProfile { .. } => "OutOfProfile",
            CheckFault::Backward { .. } => "Backward",
            CheckFault::NotAligned { .. } => "NotAligned",
            CheckFault::PastEnd { .. } => "PastEnd",
            CheckFault::Cost => "Cost",
            CheckFault::UnknownField { .. } => "UnknownField",
        }
    }
}

/// A [`CheckFault`], or a refused allocation.
pub type CheckError = Failure<CheckFault>;
