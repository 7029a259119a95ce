//! The fields of an application call.

ghost use Rattle.std.specs.Prelude.{◌≡◌, ◌↔◌, IsTrue};
ghost use Rattle.avm_items.specs.CallFields.{completion_number};
ghost use Rattle.avm_items.specs.SameCalls.{HasSameLists, HasSameTarget, HasSameTerms};

use avm_states::Schema;
use std::marker::Model;
use teal_value::{Address, ByteString, ByteStrings, ThinBytes, Uints};

/// A list of accounts, which contracts see as the list of their addresses.
#[derive(Debug, Drop)]
pub struct Addresses {
    addresses: Vec<Address>,
}

impl Model for Addresses {
    ghost use Rattle.std.specs.Prelude.{List};
    ghost use Rattle.teal_value.specs.declared.address.Address.{Address};

    ghost Value = { List Address };

    ghost view = { λ a. a.addresses.items };
}

impl Addresses {
    /// The vector's addresses, without a copy.
    pub fn from_vec(addresses: Vec<Address>) -> Self
        ensures { result ≡ addresses.items }
    {
        Addresses { addresses }
    }

    /// The addresses, lent.
    pub fn as_slice(&self) -> &[Address]
        ensures { result.now ≡ self.now }
    {
        self.addresses.as_slice()
    }

    /// The addresses, without a copy.
    pub fn into_vec(self) -> Vec<Address>
        ensures { result.items ≡ self }
    {
        self.addresses
    }
}

/// What a call does beside running the program, by its number (AVM specification, "OnCompletion").
#[derive(Clone, Copy, Debug, PartialEq, Eq)]
pub enum Completion {
    NoOp = 0,
    OptIn,
    CloseOut,
    ClearState,
    UpdateApplication,
    DeleteApplication,
}

impl Completion {
    /// Its number, as programs and the bytes of a call have it.
    pub fn number(self) -> u8
        ensures { result ≡ completion_number self }
    {
        match self {
            Completion::NoOp => 0,
            Completion::OptIn => 1,
            Completion::CloseOut => 2,
            Completion::ClearState => 3,
            Completion::UpdateApplication => 4,
            Completion::DeleteApplication => 5,
        }
    }
}

/// The fields of an application call.
#[derive(Debug)]
pub struct CallData {
    pub sender: Address,
    /// In microalgos.
    pub fee: u64,
    /// The first round in which the call may stand.
    pub first_valid: u64,
    /// The last round in which it may stand.
    pub last_valid: u64,
    pub note: ByteString,
    pub lease: [u8; 32],
    pub rekey_to: Address,
    /// The application that is called, or 0 in a creation.
    pub application: u64,
    pub completion: Completion,
    pub arguments: ByteStrings,
    /// The accounts beside the sender.
    pub accounts: Addresses,
    /// The applications beside the one that is called.
    pub foreign_applications: Uints,
    /// The approval program that a creation or an update brings, and else empty.
    pub approval: ThinBytes,
    /// The clear state program that a creation or an update brings, and else empty.
    pub clear: ThinBytes,
    pub global_schema: Schema,
    pub local_schema: Schema,
}

/// Written out, so that whoever owns one drops it by one call and not part by part.
impl Drop for CallData {
    #[inline]
    fn drop(self) {
        let CallData {
            sender: _,
            fee: _,
            first_valid: _,
            last_valid: _,
            note: _,
            lease: _,
            rekey_to: _,
            application: _,
            completion: _,
            arguments: _,
            accounts: _,
            foreign_applications: _,
            approval: _,
            clear: _,
            global_schema: _,
            local_schema: _,
        } = self;
    }
}

impl CallData {
    /// Whether two calls have the same fields. Nothing is copied.
    pub fn is_same(&self, other: &CallData) -> bool
        ensures { IsTrue result ↔ (self.now ≡ other.now) }
    {
        if !self.has_same_terms(other) || !self.has_same_target(other) {
            return false;
        }
        self.has_same_lists(other) && self.has_same_programs(other)
    }

    /// Whether sender, fee, rounds, lease and new authority are the same.
    fn has_same_terms(&self, other: &CallData) -> bool
        ensures { IsTrue result ↔ HasSameTerms self.now other.now }
    {
        if self.sender != other.sender || self.rekey_to != other.rekey_to {
            return false;
        }
        if self.fee != other.fee || self.first_valid != other.first_valid {
            return false;
        }
        self.last_valid == other.last_valid && self.lease == other.lease
    }

    /// Whether application, completion and schemas are the same.
    fn has_same_target(&self, other: &CallData) -> bool
        ensures { IsTrue result ↔ HasSameTarget self.now other.now }
    {
        if self.application != other.application || self.completion != other.completion {
            return false;
        }
        self.global_schema == other.global_schema && self.local_schema == other.local_schema
    }

    /// Whether the note and the lists are the same.
    fn has_same_lists(&self, other: &CallData) -> bool
        ensures { IsTrue result ↔ HasSameLists self.now other.now }
    {
        if self.note.as_slice() != other.note.as_slice()
            || !are_same_strings(self.arguments.as_slice(), other.arguments.as_slice())
        {
            return false;
        }
        are_same_accounts(self.accounts.as_slice(), other.accounts.as_slice())
            && self.foreign_applications.as_slice() == other.foreign_applications.as_slice()
    }

    /// Whether the programs that they bring are the same.
    fn has_same_programs(&self, other: &CallData) -> bool
        ensures { IsTrue result
            ↔ ((self.now.approval ≡ other.now.approval) × (self.now.clear ≡ other.now.clear)) }
    {
        self.approval.as_slice() == other.approval.as_slice()
            && self.clear.as_slice() == other.clear.as_slice()
    }
}

/// Whether two lists of accounts are the same.
fn are_same_accounts(accounts: &[Address], others: &[Address]) -> bool
    ensures { IsTrue result ↔ (accounts.now ≡ others.now) }
{
    accounts == others
}

/// Whether two lists of byte strings are the same.
fn are_same_strings(strings: &[ByteString], others: &[ByteString]) -> bool
    ensures { IsTrue result ↔ (strings.now ≡ others.now) }
{
    if strings.len() != others.len() {
        return false;
    }
    for index in 0..strings.len() {
        if strings[index].as_slice() != others[index].as_slice() {
            return false;
        }
    }
    true
}
