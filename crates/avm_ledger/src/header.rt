//! What a block tells its programs.

/// Which versions of the opcode table the calls of a block may bring in.
#[derive(Clone, Copy, Debug, PartialEq, Eq)]
pub enum Profile {
    /// Version 2 alone.
    Two,
    /// Versions 2 and 3.
    Three,
}

/// What the `global` fields of a block's programs are read from (AVM specification, "Global Fields").
#[derive(Clone, Copy, Debug, PartialEq, Eq)]
pub struct Header {
    pub profile: Profile,
    /// The round, `Round`.
    pub round: u64,
    /// Seconds since the epoch, `LatestTimestamp`.
    pub latest_timestamp: u64,
    /// In microalgos, `MinTxnFee`.
    pub min_fee: u64,
    /// In microalgos, `MinBalance`.
    pub min_balance: u64,
    /// In rounds, `MaxTxnLife`.
    pub max_life: u64,
}
