//! The text of an address (Algorand developer documentation, "Transformation: Public Key to Algorand Address").

ghost use Rattle.std.specs.Prelude.{◌≡◌, ℕ, List, Ok, IfOk, length, take, drop};
ghost use Rattle.std.specs.String.{string_bytes};
ghost use Rattle.teal_value.specs.Answer.{Gives};
ghost use Rattle.teal_value.specs.AddressText.{address_text, address_of, address_before_checksum, checksum};
ghost use Rattle.teal_value.specs.FaultNames.{address_fault_name};

use crate::address::Address;
use crate::base32::{base32_decode_bytes, base32_encode};
use crate::failure::Failure;
use sha2::{Digest, Sha512_256};
use std::alloc::{AllocError, Global};
use thiserror::Error;

/// Why a text is no address.
#[derive(Clone, Copy, Debug, PartialEq, Eq, Error)]
#[error("{name}", name = self.name())]
pub enum AddressFault {
    /// It is not 58 characters of base32 with spare bits 0.
    BadText = 1,
    /// Its last 4 bytes are not the checksum of the others.
    BadChecksum,
}

impl AddressFault {
    /// Its name.
    pub fn name(self) -> &'static str
        ensures { result.now ≡ address_fault_name self }
    {
        match self {
            AddressFault::BadText => "BadText",
            AddressFault::BadChecksum => "BadChecksum",
        }
    }
}

/// The text of an address: 58 characters, the last of which hold a checksum.
#[tactic(auto, unfolding(crate::specs::AddressText::address_text))]
pub fn address_text(alloc: Global, address: &Address) -> Result<String, AllocError>
    ensures { IfOk result (λ text. string_bytes text ≡ address_text address.now) }
{
    let mut bytes = Vec::from_slice(alloc, &address.0)?;
    bytes.extend_from_slice(&checksum(&address.0))?;
    base32_encode(alloc, &bytes)
}

/// The address that a text writes.
pub fn address_of_text(alloc: Global, text: &str) -> Result<Address, Failure<AddressFault>>
    ensures { Gives (λ a. a) result (address_of text.now) }
{
    address_of_bytes(alloc, text.as_bytes())
}

/// `address_of_text` of the bytes of a text.
#[tactic(auto, unfolding(crate::specs::AddressText::address_of))]
pub fn address_of_bytes(alloc: Global, text: &[u8]) -> Result<Address, Failure<AddressFault>>
    ensures { Gives (λ a. a) result (address_of text.now) }
{
    let bytes = base32_decode_bytes(alloc, text).map_err(|failure| failure.map(
        |_bad_text| AddressFault::BadText,
    ))?;
    if text.len() == 58 && bytes.len() == 36 {
        address_before_checksum(&bytes)
    } else {
        Err(Failure::Fault(AddressFault::BadText))
    }
}

/// The law of `address_of_text`: the text of an address reads as this address, and no other text does.
pub fn address_has_one_text(address: &Address)
    ensures reads { address_of (address_text address.now) ≡ Ok address.now }
    ensures only { (text : List ℕ)
        → address_of text ≡ Ok address.now → text ≡ address_text address.now }
{
    key_has_one_text(&address.0, &checksum(&address.0));
}

fn key_has_one_text(key: &[u8], sum: &[u8])
    requires key { length key.now ≡ 32 }
    requires sum { (length sum.now ≡ 4) × (sum.now ≡ checksum key.now) }
    ensures reads { address_of (address_text (record { 0 = key.now }))
        ≡ Ok (record { 0 = key.now }) }
    ensures only { (text : List ℕ) → address_of text ≡ Ok (record { 0 = key.now })
        → text ≡ address_text (record { 0 = key.now }) }
{
    let _ = key;
    let _ = sum;
}

fn address_before_checksum(bytes: &[u8]) -> Result<Address, Failure<AddressFault>>
    requires { length bytes.now ≡ 36 }
    ensures { Gives (λ a. a) result (address_before_checksum bytes.now) }
{
    let (front, sum) = bytes.split_at(32);
    let mut key = [0; 32];
    key.copy_from_slice(front);
    if sum == checksum(&key).as_slice() {
        Ok(Address(key))
    } else {
        Err(Failure::Fault(AddressFault::BadChecksum))
    }
}

fn checksum(key: &[u8; 32]) -> [u8; 4]
    ensures { result ≡ checksum key.now }
{
    let digest = Sha512_256::digest(key);
    let mut sum = [0; 4];
    sum.copy_from_slice(&digest[28..]);
    sum
}
