//! Which calls a block of a profile may have.

ghost use Rattle.std.specs.Prelude.{◌≡◌, ◌≤◌, ◌+◌, true, All, None, length};
ghost use Rattle.avm_call.specs.CallRules.{needed_profile};
ghost use Rattle.avm_block.specs.AcceptedCalls.{first_beyond, is_accepted, fits_in};

use crate::block::MAX_ENTRIES;
use avm_call::Call;
use avm_ledger::Profile;

/// Whether a block of this profile may have the call.
pub fn accepts(profile: Profile, call: &Call) -> bool
    ensures accepted { result ≡ is_accepted profile call.now }
    ensures within { result ≡ fits_in (needed_profile call.now) profile }
{
    let _fields = call.fields();
    fits_in(call.needs(), profile)
}

/// The number, counted from 1, of the first call that a block of the profile may not have, since it needs a newer one.
pub fn first_beyond(profile: Profile, calls: &[Call]) -> Option<u32>
    requires few { length calls.now ≤ MAX_ENTRIES }
    ensures beyond { result ≡ first_beyond profile 1 calls.now }
    ensures accepted { result ≡ None → All (λ call. is_accepted profile call ≡ true) calls.now }
{
    let mut number = 0;
    for call in calls {
        number += 1;
        if !accepts(profile, call) {
            return Some(number);
        }
    }
    None
}

fn fits_in(needed: Profile, profile: Profile) -> bool
    ensures { result ≡ fits_in needed profile }
{
    match (needed, profile) {
        (Profile::Two, _) => true,
        (Profile::Three, Profile::Two) => false,
        (Profile::Three, Profile::Three) => true,
    }
}
