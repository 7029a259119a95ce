//! Why there is no trace.

use avm_stepper::OpenFault;

/// Why an entry of a block has no trace.
#[derive(Clone, Copy, Debug, PartialEq, Eq)]
pub enum TraceRefusal {
    /// Its call is not opened, for this reason.
    Opening(OpenFault),
    /// The text of the trace would be longer than 64 MiB.
    TooLong,
}
