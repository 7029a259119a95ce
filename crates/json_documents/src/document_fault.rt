//! What documents are refused for.

ghost use Rattle.std.specs.Prelude.{◌≡◌};
ghost use Rattle.json_documents.specs.FaultNames.{document_fault_name};

use crate::text::Text;
use teal_check::CheckFault;
use teal_source::AsmFault;

/// What is wrong with a value of a document.
#[derive(Debug, Drop)]
pub enum DocumentFault {
    /// The input is no JSON document.
    Syntax,
    /// The value is no object.
    NotObject,
    /// It is no array.
    NotArray,
    /// It is no string.
    NotText,
    /// It is no number from 0 to 2^64 - 1 without sign, point and exponent.
    NotUint,
    /// It is neither `true` nor `false`.
    NotBool,
    /// The object has a member of this name, which is none of its table.
    Unknown(Text),
    /// A member is missing that has to be there.
    Missing,
    /// It is there no more: an indexer lists what is gone, too.
    Deleted,
    /// The string is no base64 of the standard alphabet, with its padding.
    BadBase64,
    /// The string is no text of an address.
    BadAddress,
    /// The string is the text of an address but for its checksum.
    BadChecksum,
    /// The number is no id, or one that is not given yet.
    IdRange,
    /// The schema allows too many entries.
    SchemaSize,
    /// The key is too long.
    KeyLength,
    /// The value of a key is too long.
    TooLong,
    /// The value of a key is of no known type.
    ValueType,
    /// The member for values of the other type is there.
    OtherKind,
    /// It stands twice where it may stand once.
    Twice,
    /// The state has more entries than its schema allows.
    Schema,
    /// It stands twice, and the two differ.
    Differs,
    /// The bytes break a rule of programs.
    Program(CheckFault),
    /// The text is no source of a program.
    Source(AsmFault),
    /// The text names no program of an application or a transaction.
    FieldName,
    /// What the source is for is not in the document.
    NoTarget,
    /// There are too many elements.
    TooMany,
    /// The transaction is no application call.
    TxnType,
    /// The group has another length than 32 bytes.
    GroupLength,
    /// A transaction before has the same group.
    Group,
    /// The number is that of no completion.
    Completion,
    /// The lease has another length than 32 bytes.
    LeaseLength,
    /// The call has too many accounts.
    Accounts,
    /// The call has too many arguments.
    Args,
    /// The arguments of the call have too many bytes together.
    ArgBytes,
    /// The call has too many foreign applications.
    Foreign,
    /// The note of the call is too long.
    Note,
    /// A creation or an update lacks a program.
    ProgramsMissing,
    /// Another call has a program.
    ProgramsGiven,
    /// A creation clears.
    ClearOnCreate,
}

impl DocumentFault {
    /// Its name.
    pub fn name(&self) -> &'static str
        ensures { result.now ≡ document_fault_name self.now }
    {
        match self {
            DocumentFault::Syntax => "Syntax",
            DocumentFault::NotObject => "NotObject",
            DocumentFault::NotArray => "NotArray",
            DocumentFault::NotText => "NotText",
            DocumentFault::NotUint => "NotUint",
            DocumentFault::NotBool => "NotBool",
            DocumentFault::Unknown(_) => "Unknown",
            DocumentFault::Missing => "Missing",
            DocumentFault::Deleted => "Deleted",
            DocumentFault::BadBase64 => "BadBase64",
            DocumentFault::BadAddress => "BadAddress",
            DocumentFault::BadChecksum => "BadChecksum",
            DocumentFault::IdRange => "IdRange",
            DocumentFault::SchemaSize => "SchemaSize",
            DocumentFault::KeyLength => "KeyLength",
            DocumentFault::TooLong => "TooLong",
            DocumentFault::ValueType => "ValueType",
            DocumentFault::OtherKind => "OtherKind",
            DocumentFault::Twice => "Twice",
            DocumentFault::Schema => "Schema",
            DocumentFault::Differs => "Differs",
            DocumentFault::Program(_) => "Program",
            DocumentFault::Source(_) => "Source",
            DocumentFault::FieldName => "FieldName",
            DocumentFault::NoTarget => "NoTarget",
            DocumentFault::TooMany => "TooMany",
            DocumentFault::TxnType => "TxnType",
            DocumentFault::GroupLength => "GroupLength",
            DocumentFault::Group => "Group",
            DocumentFault::Completion => "Completion",
            DocumentFault::LeaseLength => "LeaseLength",
            DocumentFault::Accounts => "Accounts",
            DocumentFault::Args => "Args",
            DocumentFault::ArgBytes => "ArgBytes",
            DocumentFault::Foreign => "Foreign",
            DocumentFault::Note => "Note",
            DocumentFault::ProgramsMissing => "ProgramsMissing",
            DocumentFault::ProgramsGiven => "ProgramsGiven",
            DocumentFault::ClearOnCreate => "ClearOnCreate",
        }
    }
}
