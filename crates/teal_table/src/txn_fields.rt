//! Fields of the transaction.

ghost use Rattle.std.specs.Prelude.{◌≡◌, find};
ghost use Rattle.std.specs.Str.{bytes_eq};
ghost use Rattle.teal_table.specs.Fields.{txn_number, txn_name, is_array, txn_field_at, txn_field_named};

/// A field of the application call that runs (AVM specification, "txn fields"), without those of other transaction types,
/// of fees charged and of signatures.
#[derive(Clone, Copy, Debug, PartialEq, Eq)]
pub enum TxnField {
    Sender,
    Fee,
    FirstValid,
    FirstValidTime,
    LastValid,
    Note,
    Lease,
    Receiver,
    Amount,
    CloseRemainderTo,
    Type,
    TypeEnum,
    GroupIndex,
    ApplicationId,
    OnCompletion,
    ApplicationArgs,
    NumAppArgs,
    Accounts,
    NumAccounts,
    ApprovalProgram,
    ClearStateProgram,
    RekeyTo,
}

impl TxnField {
    /// Its number in a program.
    pub fn number(self) -> u8
        ensures { result ≡ txn_number self }
    {
        match self {
            TxnField::Sender => 0,
            TxnField::Fee => 1,
            TxnField::FirstValid => 2,
            TxnField::FirstValidTime => 3,
            TxnField::LastValid => 4,
            TxnField::Note => 5,
            TxnField::Lease => 6,
            TxnField::Receiver => 7,
            TxnField::Amount => 8,
            TxnField::CloseRemainderTo => 9,
            TxnField::Type => 15,
            TxnField::TypeEnum => 16,
            TxnField::GroupIndex => 22,
            TxnField::ApplicationId => 24,
            TxnField::OnCompletion => 25,
            TxnField::ApplicationArgs => 26,
            TxnField::NumAppArgs => 27,
            TxnField::Accounts => 28,
            TxnField::NumAccounts => 29,
            TxnField::ApprovalProgram => 30,
            TxnField::ClearStateProgram => 31,
            TxnField::RekeyTo => 32,
        }
    }

    /// Its name in source text.
    pub fn name(self) -> &'static str
        ensures { result.now ≡ txn_name self }
    {
        match self {
            TxnField::Sender => "Sender",
            TxnField::Fee => "Fee",
            TxnField::FirstValid => "FirstValid",
            TxnField::FirstValidTime => "FirstValidTime",
            TxnField::LastValid => "LastValid",
            TxnField::Note => "Note",
            TxnField::Lease => "Lease",
            TxnField::Receiver => "Receiver",
            TxnField::Amount => "Amount",
            TxnField::CloseRemainderTo => "CloseRemainderTo",
            TxnField::Type => "Type",
            TxnField::TypeEnum => "TypeEnum",
            TxnField::GroupIndex => "GroupIndex",
            TxnField::ApplicationId => "ApplicationID",
            TxnField::OnCompletion => "OnCompletion",
            TxnField::ApplicationArgs => "ApplicationArgs",
            TxnField::NumAppArgs => "NumAppArgs",
            TxnField::Accounts => "Accounts",
            TxnField::NumAccounts => "NumAccounts",
            TxnField::ApprovalProgram => "ApprovalProgram",
            TxnField::ClearStateProgram => "ClearStateProgram",
            TxnField::RekeyTo => "RekeyTo",
        }
    }

    /// Whether it is an array, which `txna` and its like read with an index; the others are scalars.
    pub fn is_array(self) -> bool
        ensures { result ≡ is_array self }
    {
        matches!(self, TxnField::ApplicationArgs | TxnField::Accounts)
    }
}

/// The transaction field of a number, if it is one of this machine's.
#[tactic(auto, unfolding(crate::specs::Fields::txn_field_at))]
pub fn txn_field(number: u8) -> Option<TxnField>
    ensures { result ≡ txn_field_at number }
{
    match number {
        0 => Some(TxnField::Sender),
        1 => Some(TxnField::Fee),
        2 => Some(TxnField::FirstValid),
        3 => Some(TxnField::FirstValidTime),
        4 => Some(TxnField::LastValid),
        5 => Some(TxnField::Note),
        6 => Some(TxnField::Lease),
        7 => Some(TxnField::Receiver),
        8 => Some(TxnField::Amount),
        9 => Some(TxnField::CloseRemainderTo),
        15 => Some(TxnField::Type),
        16 => Some(TxnField::TypeEnum),
        22 => Some(TxnField::GroupIndex),
        24 => Some(TxnField::ApplicationId),
        25 => Some(TxnField::OnCompletion),
        26 => Some(TxnField::ApplicationArgs),
        27 => Some(TxnField::NumAppArgs),
        28 => Some(TxnField::Accounts),
        29 => Some(TxnField::NumAccounts),
        30 => Some(TxnField::ApprovalProgram),
        31 => Some(TxnField::ClearStateProgram),
        32 => Some(TxnField::RekeyTo),
        _ => None,
    }
}

/// The transaction field of a name of source text, if it is one of this machine's.
pub fn txn_field_by_name(name: &str) -> Option<TxnField>
    ensures { result ≡ txn_field_named name.now }
{
    txn_field_named(name.as_bytes())
}

/// `txn_field_by_name` of the bytes of a name.
#[tactic(auto, unfolding(crate::specs::Fields::txn_field_named))]
pub fn txn_field_named(name: &[u8]) -> Option<TxnField>
    ensures { result ≡ txn_field_named name.now }
{
    txn_field_in(&TXN_FIELDS, name)
}

// The first field with the name.
fn txn_field_in(fields: &[TxnField], name: &[u8]) -> Option<TxnField>
    ensures { result ≡ find (λ f. bytes_eq (txn_name f) name.now) fields.now }
{
    for field in fields {
        if field.name().as_bytes() == name {
            return Some(*field);
        }
    }
    None
}

static TXN_FIELDS: [TxnField; 22] = [
    TxnField::Sender,
    TxnField::Fee,
    TxnField::FirstValid,
    TxnField::FirstValidTime,
    TxnField::LastValid,
    TxnField::Note,
    TxnField::Lease,
    TxnField::Receiver,
    TxnField::Amount,
    TxnField::CloseRemainderTo,
    TxnField::Type,
    TxnField::TypeEnum,
    TxnField::GroupIndex,
    TxnField::ApplicationId,
    TxnField::OnCompletion,
    TxnField::ApplicationArgs,
    TxnField::NumAppArgs,
    TxnField::Accounts,
    TxnField::NumAccounts,
    TxnField::ApprovalProgram,
    TxnField::ClearStateProgram,
    TxnField::RekeyTo,
];
