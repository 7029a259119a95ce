//! That the fields of calls are within the sizes that their bytes have room for. What stands here does no work.

ghost use Rattle.std.specs.Prelude.{◌≡◌, ◌<◌, length, None, All};
ghost use Rattle.avm_call_codec.specs.CallRoundTrip.{HasFields, IsAddress, IsWord};
ghost use Rattle.avm_call.specs.CallRules.{call_fault};

use crate::entry::Entry;
use avm_call::Call;
use avm_items::CallData;
use avm_states::Schema;
use teal_value::Address;

/// Timestamps and the fields of calls are within their sizes.
pub(crate) fn entries_fit(entries: &[Entry])
    ensures calls { All (λ e. HasFields e.call) entries.now }
    ensures timestamps { All (λ e. IsWord e.timestamp) entries.now }
{
    for entry in entries {
        let _timestamp = entry.timestamp;
        call_fits(&entry.call);
    }
}

fn call_fits(call: &Call)
    ensures { HasFields call.now }
{
    fields_fit(call.fields())
}

/// Numbers are within the sizes of their types, byte strings and lists within the limits of calls.
fn fields_fit(fields: &CallData)
    requires { call_fault fields.now ≡ None }
    ensures { HasFields fields.now }
{
    let _fee = fields.fee;
    let _first_valid = fields.first_valid;
    let _last_valid = fields.last_valid;
    let _application = fields.application;
    schema_fits(&fields.global_schema);
    schema_fits(&fields.local_schema);
    has_32_bytes(&fields.lease);
    is_address(&fields.sender);
    is_address(&fields.rekey_to);
    are_words(fields.foreign_applications.as_slice());
    are_addresses(fields.accounts.as_slice());
}

fn schema_fits(schema: &Schema)
    ensures uints { schema.now.uints < 256 }
    ensures bytes { schema.now.bytes < 256 }
{
    let _uints = schema.uints;
    let _bytes = schema.bytes;
}

fn are_words(numbers: &[u64])
    ensures { All IsWord numbers.now }
{}

fn are_addresses(addresses: &[Address])
    ensures { All IsAddress addresses.now }
{
    for address in addresses {
        is_address(address);
    }
}

fn is_address(address: &Address)
    ensures { IsAddress address.now }
{
    has_32_bytes(&address.0);
}

fn has_32_bytes(bytes: &[u8; 32])
    ensures { length bytes.now ≡ 32 }
{}
