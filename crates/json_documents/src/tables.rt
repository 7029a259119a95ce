//! The names of each object's members, read and ignored ones.

/// The document.
pub(crate) const DOCUMENT: [&str; 13] = [
    "accounts",
    "apps",
    "digests",
    "latest-timestamp",
    "max-life",
    "min-balance",
    "min-fee",
    "next-id",
    "profile",
    "protocol-version",
    "round",
    "sources",
    "txns",
];

/// An application.
pub(crate) const APPLICATION: [&str; 5] = [
    "created-at-round",
    "deleted",
    "deleted-at-round",
    "id",
    "params",
];

/// What an application is made with.
pub(crate) const PARAMS: [&str; 8] = [
    "approval-program",
    "clear-state-program",
    "creator",
    "extra-program-pages",
    "global-state",
    "global-state-schema",
    "local-state-schema",
    "version",
];

/// A key with its value.
pub(crate) const KEY_VALUE: [&str; 2] = ["key", "value"];

/// The value of a key.
pub(crate) const VALUE: [&str; 3] = ["bytes", "type", "uint"];

/// An account.
pub(crate) const ACCOUNT: [&str; 30] = [
    "address",
    "amount",
    "amount-without-pending-rewards",
    "apps-local-state",
    "apps-total-extra-pages",
    "apps-total-schema",
    "assets",
    "auth-addr",
    "closed-at-round",
    "created-apps",
    "created-assets",
    "created-at-round",
    "deleted",
    "incentive-eligible",
    "last-heartbeat",
    "last-proposed",
    "min-balance",
    "participation",
    "pending-rewards",
    "reward-base",
    "rewards",
    "round",
    "sig-type",
    "status",
    "total-apps-opted-in",
    "total-assets-opted-in",
    "total-box-bytes",
    "total-boxes",
    "total-created-apps",
    "total-created-assets",
];

/// A local state.
pub(crate) const LOCAL: [&str; 6] = [
    "closed-out-at-round",
    "deleted",
    "id",
    "key-value",
    "opted-in-at-round",
    "schema",
];

/// A transaction with its signatures.
pub(crate) const SIGNED: [&str; 7] = ["lsig", "msig", "outcome", "sgnr", "sig", "timestamp", "txn"];

/// A transaction.
pub(crate) const TRANSACTION: [&str; 23] = [
    "apaa", "apan", "apap", "apas", "apat", "apbx", "apep", "apfa", "apgs", "apid", "apls", "apsu",
    "fee", "fv", "gen", "gh", "grp", "lv", "lx", "note", "rekey", "snd", "type",
];

/// A program as source text.
pub(crate) const SOURCE: [&str; 4] = ["app-index", "field-name", "source", "txn-index"];
