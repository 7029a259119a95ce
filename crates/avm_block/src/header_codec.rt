//! The bytes of a block's format and header. Where memory is refused, the bytes hold what they held.

ghost use Rattle.std.specs.Prelude.{◌≡◌, ◌++◌, OnErr, OnOk};
ghost use Rattle.teal_value.specs.Answer.{Gives};
ghost use Rattle.teal_code.specs.Encoding.{Continues};
ghost use Rattle.avm_ledger.specs.Encodings.{header_bytes};
ghost use Rattle.avm_block.specs.BlockEncoding.{format_bytes};
ghost use Rattle.avm_block.specs.BlockReader.{header_at, profile_at};

use crate::block_fault::{BlockError, BlockFault};
use avm_ledger::encoding::{cut_if_refused, put_u64};
use avm_ledger::{Fields, Header, Profile};
use std::alloc::AllocError;
use teal_value::Failure;

/// Appends the number of the format, and in format 2 the profile.
pub fn put_format(bytes: &mut Vec<u8>, profile: Profile) -> Result<(), AllocError>
    ensures written { OnOk result (bytes.new.items ≡ bytes.old.items ++ format_bytes profile) }
    ensures unchanged { OnErr result (bytes.new.items ≡ bytes.old.items) }
{
    match profile {
        Profile::Two => bytes.extend_from_slice(&[1]),
        Profile::Three => bytes.extend_from_slice(&[2, 3]),
    }
}

/// The profile of the format that the bytes begin with, and the bytes behind it.
pub fn profile_of(fields: Fields<'_>) -> Result<(Profile, Fields<'_>), BlockError>
    ensures { Gives (λ x. x) result (profile_at fields.entry) }
{
    let (format, rest) = fields.u8(BlockFault::Truncated)?;
    match format {
        1 => Ok((Profile::Two, rest)),
        2 => {
            let (profile, rest) = rest.u8(BlockFault::Truncated)?;
            if profile != 3 {
                return Err(Failure::Fault(BlockFault::Field));
            }
            Ok((Profile::Three, rest))
        }
        _ => Err(Failure::Fault(BlockFault::Format)),
    }
}

/// Appends the numbers of a header.
pub fn put_header(bytes: &mut Vec<u8>, header: &Header) -> Result<(), AllocError>
    ensures written { OnOk result (bytes.new.items ≡ bytes.old.items ++ header_bytes header.now) }
    ensures unchanged { OnErr result (bytes.new.items ≡ bytes.old.items) }
{
    let start = bytes.len();
    let appended = push_header(bytes, header);
    cut_if_refused(bytes, start, appended)
}

// Where memory is refused, a part of the encoding may stand behind what was there.
fn push_header(bytes: &mut Vec<u8>, header: &Header) -> Result<(), AllocError>
    ensures written { OnOk result (bytes.new.items ≡ bytes.old.items ++ header_bytes header.now) }
    ensures kept { Continues bytes.old.items bytes.new.items }
{
    put_u64(bytes, header.round)?;
    put_u64(bytes, header.latest_timestamp)?;
    put_u64(bytes, header.min_fee)?;
    put_u64(bytes, header.min_balance)?;
    put_u64(bytes, header.max_life)?;
    Ok(())
}

/// The header of this profile that the bytes begin with, and the bytes behind it.
pub fn header_of(profile: Profile, fields: Fields<'_>) -> Result<(Header, Fields<'_>), BlockError>
    ensures { Gives (λ x. x) result (header_at profile fields.entry) }
{
    let (round, rest) = fields.u64(BlockFault::Truncated)?;
    let (latest_timestamp, rest) = rest.u64(BlockFault::Truncated)?;
    let (min_fee, rest) = rest.u64(BlockFault::Truncated)?;
    let (min_balance, rest) = rest.u64(BlockFault::Truncated)?;
    let (max_life, rest) = rest.u64(BlockFault::Truncated)?;
    let header = Header {
        profile,
        round,
        latest_timestamp,
        min_fee,
        min_balance,
        max_life,
    };
    Ok((header, rest))
}
