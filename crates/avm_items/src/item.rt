//! Items of a ledger.

ghost use Rattle.std.specs.Prelude.{◌≡◌, ◌==◌, ◌++◌, ◌∷◌, []};
ghost use Rattle.std.proofs.Common.{rules};
ghost use Rattle.std.specs.Cmp.{partial_order_from_own_ties};
ghost use Rattle.std.specs.Cmp.Lexicographic.{slice_cmp, pointwise};
ghost use Rattle.std.specs.Cmp.Rules.{comparing};
ghost use Rattle.std.specs.Ordering.{nat_cmp, on, as_partial_cmp};
ghost use Rattle.avm_items.specs.Items.{is_global_of, kind_of, sort_key};

use std::cmp::Ordering;
use teal_value::{Address, StateKey};

/// A part of a ledger that a call reads or writes as a whole. Items are ordered as written here.
#[derive(Debug)]
pub enum Item {
    /// The id of the next application that is created.
    NextApp,
    /// An application without its global state.
    App(u64),
    /// How many uints and byte strings an application's global state has.
    Counts(u64),
    /// The value of a key of an application's global state.
    Key(u64, StateKey),
    /// An account's local state of an application, as a whole.
    Local(Address, u64),
}

/// Written out, so that whoever owns one drops it by one call and not part by part.
impl Drop for Item {
    #[inline]
    fn drop(self) {
        match self {
            Item::NextApp | Item::App(_) | Item::Counts(_) => {}
            Item::Key(_, _) | Item::Local(_, _) => {}
        }
    }
}

impl Item {
    /// The same item. It takes no memory.
    pub fn copied(&self) -> Item
        ensures { result ≡ self.now }
    {
        match self {
            Item::NextApp => Item::NextApp,
            Item::App(id) => Item::App(*id),
            Item::Counts(id) => Item::Counts(*id),
            Item::Key(id, key) => Item::Key(*id, key.copied()),
            Item::Local(who, id) => Item::Local(*who, *id),
        }
    }

    /// Whether it is the counts or a key of an application's global state.
    pub fn is_global_of(&self, id: u64) -> bool
        ensures { result ≡ is_global_of id self.now }
    {
        match self {
            Item::Counts(other) | Item::Key(other, _) => *other == id,
            _ => false,
        }
    }

    /// The place of its kind in the order of items.
    fn kind(&self) -> u8
        ensures { result ≡ kind_of self.now }
    {
        match self {
            Item::NextApp => 0,
            Item::App(_) => 1,
            Item::Counts(_) => 2,
            Item::Key(..) => 3,
            Item::Local(..) => 4,
        }
    }
}

/// Whether two local states are the same account's, of the same application.
#[tactic(auto, using(crate::proofs::Orders::pointwise_end))]
fn is_same_local(who: &[u8; 32], id: u64, other_who: &[u8; 32], other: u64) -> bool
    ensures { result ≡ pointwise ◌==◌ (who.now ++ id ∷ []) (other_who.now ++ other ∷ []) }
{
    is_same_account(who, other_who) && id == other
}

/// Whether two accounts are the same. Where they are not, the first byte mostly shows it.
fn is_same_account(who: &[u8; 32], other: &[u8; 32]) -> bool
    ensures { result ≡ pointwise ◌==◌ who.now other.now }
{
    if who[0] != other[0] {
        return false;
    }
    who == other
}

/// The order of local states: by account, and then by application.
#[tactic(auto, using(crate::proofs::Orders::slice_cmp_end))]
fn local_cmp(who: &Address, id: u64, other_who: &Address, other: u64) -> Ordering
    ensures { result ≡ slice_cmp nat_cmp (who.now.0 ++ id ∷ []) (other_who.now.0 ++ other ∷ []) }
{
    // Both have 32 bytes, as their type says.
    let (_bytes, _other_bytes) = (who.0, other_who.0);
    account_cmp(who, other_who).then(id.cmp(&other))
}

/// The order of accounts. Where both are the same, as a look-up ends, that is found sooner than an order; where they differ,
/// the first byte mostly shows it.
#[tactic(auto, using(crate::proofs::Orders::same_is_equal))]
fn account_cmp(who: &Address, other: &Address) -> Ordering
    ensures { result ≡ slice_cmp nat_cmp who.now.0 other.now.0 }
{
    if who.0[0] == other.0[0] && who.0 == other.0 {
        return Ordering::Equal;
    }
    who.cmp(other)
}

impl PartialEq for Item {
    ghost eq = { on sort_key (pointwise ◌==◌) };

    ghost laws = { Prim.search (comparing, rules) };

    fn eq(&self, other: &Item) -> bool {
        match (self, other) {
            (Item::NextApp, Item::NextApp) => true,
            (Item::App(id), Item::App(other)) | (Item::Counts(id), Item::Counts(other)) => id
                == other,
            (Item::Key(id, key), Item::Key(other, other_key)) => id == other && key == other_key,
            (Item::Local(who, id), Item::Local(other_who, other)) => is_same_local(
                &who.0,
                *id,
                &other_who.0,
                *other,
            ),
            _ => false,
        }
    }
}

impl Eq for Item {
    ghost laws = { Prim.search (comparing, rules) };
}

impl PartialOrd for Item {
    ghost partial_cmp = { as_partial_cmp (on sort_key (slice_cmp nat_cmp)) };

    ghost laws = { partial_order_from_own_ties (Prim.search (comparing, rules)) (Prim.search (comparing, rules)) };

    fn partial_cmp(&self, other: &Item) -> Option<Ordering> {
        Some(self.cmp(other))
    }
}

impl Ord for Item {
    ghost cmp = { on sort_key (slice_cmp nat_cmp) };

    ghost total = { Prim.search (comparing, rules) };

    ghost matches_partial_cmp = { Prim.search (comparing, rules) };

    ghost matches_eq = { Prim.search (comparing, rules) };

    fn cmp(&self, other: &Item) -> Ordering {
        match (self, other) {
            (Item::App(id), Item::App(other)) | (Item::Counts(id), Item::Counts(other)) => id.cmp(
                other,
            ),
            (Item::Key(id, key), Item::Key(other, other_key)) => match id.cmp(other) {
                Ordering::Equal => key.cmp(other_key),
                order => order,
            },
            (Item::Local(who, id), Item::Local(other_who, other)) => local_cmp(
                who, *id, other_who, *other,
            ),
            _ => self.kind().cmp(&other.kind()),
        }
    }
}
