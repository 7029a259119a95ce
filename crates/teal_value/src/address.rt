//! Accounts.

ghost use Rattle.std.specs.Prelude.{◌≡◌};
ghost use Rattle.std.proofs.Common.{rules};
ghost use Rattle.std.specs.Cmp.{partial_order_from_own_ties};
ghost use Rattle.std.specs.Cmp.Lexicographic.{slice_cmp};
ghost use Rattle.std.specs.Cmp.Rules.{comparing};
ghost use Rattle.std.specs.Ordering.{nat_cmp, on, as_partial_cmp};

use std::cmp::Ordering;

/// An account's address: the 32 bytes of its public key, without the checksum of its text.
#[derive(Clone, Copy, Debug, PartialEq, Eq)]
pub struct Address(pub [u8; 32]);

impl PartialOrd for Address {
    ghost partial_cmp = { as_partial_cmp (on (λ a. a.0) (slice_cmp nat_cmp)) };

    ghost laws = { partial_order_from_own_ties (Prim.search (comparing, rules)) (Prim.search (comparing, rules)) };

    fn partial_cmp(&self, other: &Address) -> Option<Ordering> {
        Some(self.cmp(other))
    }
}

/// Addresses are ordered byte by byte. They are public keys, so the first byte decides nearly always: it is compared alone first.
impl Ord for Address {
    ghost cmp = { on (λ a. a.0) (slice_cmp nat_cmp) };

    ghost total = { Prim.search (comparing, rules) };

    ghost matches_partial_cmp = { Prim.search (comparing, rules) };

    ghost matches_eq = { Prim.search (comparing, rules) };

    fn cmp(&self, other: &Address) -> Ordering {
        match self.0[0].cmp(&other.0[0]) {
            Ordering::Equal => bytes_cmp(&self.0, &other.0),
            order => order,
        }
    }
}

/// The order of bytes. It is out of line, so that the test of the first byte alone stands where addresses are compared.
#[inline(never)]
fn bytes_cmp(bytes: &[u8; 32], other: &[u8; 32]) -> Ordering
    ensures { result ≡ slice_cmp nat_cmp bytes.now other.now }
{
    bytes.cmp(other)
}
