//! The laws of states, each the contract of a function without work.

ghost use Rattle.avm_states.specs.Schemas.{FollowPuts, FollowDeletes, StayWithKind};

/// How many uints and byte strings a state has, after a put and after a delete.
pub fn counts_follow()
    ensures puts { FollowPuts }
    ensures deletes { FollowDeletes }
    ensures same_kind { StayWithKind }
{}
