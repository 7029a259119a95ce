//! What stops a program.

ghost use Rattle.std.specs.Prelude.{◌≡◌};
ghost use Rattle.teal_value.specs.FaultNames.{fault_name};
ghost use Rattle.teal_value.specs.FaultNumbers.{fault_number, faults, numbered};

use std::fmt;
use thiserror::Error;

/// The fault of an instruction or of a program's end, by its number in the bytes of outcomes.
///
/// The rules that raise each are those of the opcode table (AVM specification, version 2 and 3 opcodes, application mode).
#[derive(Clone, Copy, Debug, PartialEq, Eq, Error)]
pub enum Fault {
    /// `err` was executed.
    Err = 1,
    /// The stack has fewer values than the instruction takes.
    Underflow,
    /// An operand is of another type than the instruction takes.
    WrongType,
    /// Two values of different types were compared.
    Compare,
    /// A result is above 2^64 - 1.
    Overflow,
    /// A difference is below 0.
    Negative,
    /// A divisor is 0.
    DivZero,
    /// A byte string is longer than is allowed where it goes.
    TooLong,
    /// An index or a range lies outside its operand.
    Range,
    /// `btoi` was given more than 8 bytes.
    BtoiLength,
    /// More than 1000 values would stand on the stack.
    StackFull,
    /// The constant block in force has no such constant.
    NoConstant,
    /// The field has no value in this profile.
    BadField,
    /// The group has no such transaction.
    NoTxn,
    /// The call has no such argument.
    NoArg,
    /// The call has no such account.
    NoAccount,
    /// The call has no such foreign application.
    NoForeign,
    /// The account has no local state of the application.
    NotOptedIn,
    /// The application doesn't exist.
    NoSuchApp,
    /// The state would have more entries than its schema allows.
    Schema,
    /// A key is longer than 64 bytes.
    KeyLength,
    /// The program ended with other than one value on the stack.
    FinalDepth,
    /// The program ended with a byte string on the stack.
    FinalBytes,
    /// `assert` was given 0.
    Assert,
}

impl fmt::Display for Fault {
    fn fmt<W: fmt::Write>(&self, f: &mut fmt::Formatter<W>) -> fmt::Result {
        f.write_str(self.name())
    }
}

impl Fault {
    /// Its name, as commands print it.
    pub fn name(self) -> &'static str
        ensures { result.now ≡ fault_name self }
    {
        match self {
            Fault::Err => "Err",
            Fault::Underflow => "Underflow",
            Fault::WrongType => "WrongType",
            Fault::Compare => "Compare",
            Fault::Overflow => "Overflow",
            Fault::Negative => "Negative",
            Fault::DivZero => "DivZero",
            Fault::TooLong => "TooLong",
            Fault::Range => "Range",
            Fault::BtoiLength => "BtoiLength",
            Fault::StackFull => "StackFull",
            Fault::NoConstant => "NoConstant",
            Fault::BadField => "BadField",
            Fault::NoTxn => "NoTxn",
            Fault::NoArg => "NoArg",
            Fault::NoAccount => "NoAccount",
            Fault::NoForeign => "NoForeign",
            Fault::NotOptedIn => "NotOptedIn",
            Fault::NoSuchApp => "NoSuchApp",
            Fault::Schema => "Schema",
            Fault::KeyLength => "KeyLength",
            Fault::FinalDepth => "FinalDepth",
            Fault::FinalBytes => "FinalBytes",
            Fault::Assert => "Assert",
        }
    }

    /// Its number in the bytes of outcomes.
    pub fn number(self) -> u8
        ensures { result ≡ fault_number self }
    {
        match self {
            Fault::Err => 1,
            Fault::Underflow => 2,
            Fault::WrongType => 3,
            Fault::Compare => 4,
            Fault::Overflow => 5,
            Fault::Negative => 6,
            Fault::DivZero => 7,
            Fault::TooLong => 8,
            Fault::Range => 9,
            Fault::BtoiLength => 10,
            Fault::StackFull => 11,
            Fault::NoConstant => 12,
            Fault::BadField => 13,
            Fault::NoTxn => 14,
            Fault::NoArg => 15,
            Fault::NoAccount => 16,
            Fault::NoForeign => 17,
            Fault::NotOptedIn => 18,
            Fault::NoSuchApp => 19,
            Fault::Schema => 20,
            Fault::KeyLength => 21,
            Fault::FinalDepth => 22,
            Fault::FinalBytes => 23,
            Fault::Assert => 24,
        }
    }

    /// The fault of this number in the bytes of outcomes.
    pub fn numbered(number: u8) -> Option<Fault>
        ensures { result ≡ numbered fault_number number faults }
    {
        fault_numbered(number, &FAULTS)
    }
}

/// All faults, by their numbers.
const FAULTS: [Fault; 24] = [
    Fault::Err,
    Fault::Underflow,
    Fault::WrongType,
    Fault::Compare,
    Fault::Overflow,
    Fault::Negative,
    Fault::DivZero,
    Fault::TooLong,
    Fault::Range,
    Fault::BtoiLength,
    Fault::StackFull,
    Fault::NoConstant,
    Fault::BadField,
    Fault::NoTxn,
    Fault::NoArg,
    Fault::NoAccount,
    Fault::NoForeign,
    Fault::NotOptedIn,
    Fault::NoSuchApp,
    Fault::Schema,
    Fault::KeyLength,
    Fault::FinalDepth,
    Fault::FinalBytes,
    Fault::Assert,
];

// The first of these faults that has the number.
fn fault_numbered(number: u8, faults: &[Fault]) -> Option<Fault>
    ensures { result ≡ numbered fault_number number faults.now }
{
    match faults {
        [] => None,
        [first, rest @ ..] => {
            if first.number() == number {
                Some(*first)
            } else {
                fault_numbered(number, rest)
            }
        }
    }
}
