//! Fields that don't depend on the transaction.

ghost use Rattle.std.specs.Prelude.{◌≡◌, find};
ghost use Rattle.std.specs.Str.{bytes_eq};
ghost use Rattle.teal_table.specs.Fields.{global_number, global_name, global_version, global_field_at, global_field_named};

use crate::shape::Version;

/// A field that `global` reads (AVM specification, "global fields").
#[derive(Clone, Copy, Debug, PartialEq, Eq)]
pub enum GlobalField {
    MinTxnFee,
    MinBalance,
    MaxTxnLife,
    ZeroAddress,
    GroupSize,
    LogicSigVersion,
    Round,
    LatestTimestamp,
    CurrentApplicationId,
    CreatorAddress,
}

impl GlobalField {
    /// Its number in a program.
    pub fn number(self) -> u8
        ensures { result ≡ global_number self }
    {
        match self {
            GlobalField::MinTxnFee => 0,
            GlobalField::MinBalance => 1,
            GlobalField::MaxTxnLife => 2,
            GlobalField::ZeroAddress => 3,
            GlobalField::GroupSize => 4,
            GlobalField::LogicSigVersion => 5,
            GlobalField::Round => 6,
            GlobalField::LatestTimestamp => 7,
            GlobalField::CurrentApplicationId => 8,
            GlobalField::CreatorAddress => 9,
        }
    }

    /// Its name in source text.
    pub fn name(self) -> &'static str
        ensures { result.now ≡ global_name self }
    {
        match self {
            GlobalField::MinTxnFee => "MinTxnFee",
            GlobalField::MinBalance => "MinBalance",
            GlobalField::MaxTxnLife => "MaxTxnLife",
            GlobalField::ZeroAddress => "ZeroAddress",
            GlobalField::GroupSize => "GroupSize",
            GlobalField::LogicSigVersion => "LogicSigVersion",
            GlobalField::Round => "Round",
            GlobalField::LatestTimestamp => "LatestTimestamp",
            GlobalField::CurrentApplicationId => "CurrentApplicationID",
            GlobalField::CreatorAddress => "CreatorAddress",
        }
    }

    /// The version of programs that it came with.
    pub fn version(self) -> Version
        ensures { result ≡ global_version self }
    {
        match self {
            GlobalField::CreatorAddress => Version::Three,
            _ => Version::Two,
        }
    }
}

/// The global field of a number, if it is one of this machine's.
#[tactic(auto, unfolding(crate::specs::Fields::global_field_at))]
pub fn global_field(number: u8) -> Option<GlobalField>
    ensures { result ≡ global_field_at number }
{
    match number {
        0 => Some(GlobalField::MinTxnFee),
        1 => Some(GlobalField::MinBalance),
        2 => Some(GlobalField::MaxTxnLife),
        3 => Some(GlobalField::ZeroAddress),
        4 => Some(GlobalField::GroupSize),
        5 => Some(GlobalField::LogicSigVersion),
        6 => Some(GlobalField::Round),
        7 => Some(GlobalField::LatestTimestamp),
        8 => Some(GlobalField::CurrentApplicationId),
        9 => Some(GlobalField::CreatorAddress),
        _ => None,
    }
}

/// The global field of a name of source text, if it is one of this machine's.
pub fn global_field_by_name(name: &str) -> Option<GlobalField>
    ensures { result ≡ global_field_named name.now }
{
    global_field_named(name.as_bytes())
}

/// `global_field_by_name` of the bytes of a name.
#[tactic(auto, unfolding(crate::specs::Fields::global_field_named))]
pub fn global_field_named(name: &[u8]) -> Option<GlobalField>
    ensures { result ≡ global_field_named name.now }
{
    global_field_in(&GLOBAL_FIELDS, name)
}

// The first field with the name.
fn global_field_in(fields: &[GlobalField], name: &[u8]) -> Option<GlobalField>
    ensures { result ≡ find (λ f. bytes_eq (global_name f) name.now) fields.now }
{
    for field in fields {
        if field.name().as_bytes() == name {
            return Some(*field);
        }
    }
    None
}

static GLOBAL_FIELDS: [GlobalField; 10] = [
    GlobalField::MinTxnFee,
    GlobalField::MinBalance,
    GlobalField::MaxTxnLife,
    GlobalField::ZeroAddress,
    GlobalField::GroupSize,
    GlobalField::LogicSigVersion,
    GlobalField::Round,
    GlobalField::LatestTimestamp,
    GlobalField::CurrentApplicationId,
    GlobalField::CreatorAddress,
];
