//! Statuses, which C sees as numbers.

ghost use Rattle.std.specs.Prelude.{◌≡◌};
ghost use Rattle.avm_bytes.specs.Statuses.{status_number};

/// What a call of the library says. A number has one meaning, whatever function gives it; 0 to 3 are the exit statuses of the
/// command line.
#[derive(Clone, Copy)]
pub enum Status {
    /// It was done: the bytes are a program, the block agrees, the answer was written.
    Done,
    /// A command refuses its input, and its answer says why.
    Refused,
    /// Words are no command, and the answer is the usage line; or a status says nothing of bytes.
    Usage,
    /// Memory was refused.
    Memory,
    /// The answer is longer than the room.
    NoRoom,
    /// The words are `propose`, which takes threads.
    Propose,
    /// The text is not UTF-8.
    NoText,
    /// The text has a fault, as source text.
    NotAssembled,
    /// The bytes break a rule of programs.
    NoProgram,
    /// The bytes are no ledger.
    NoLedger,
    /// The bytes are no block.
    NoBlock,
    /// The block stands over another ledger.
    WrongBase,
    /// An entry's call ends otherwise than the entry says.
    WrongOutcome,
    /// The ledger after the block has another digest than the block says.
    WrongState,
    /// The block has no entry of this number.
    NoEntry,
    /// No program runs in the entry's call.
    NoRun,
    /// The program ends before so many steps.
    Ended,
    /// The call asks for an item that is not known, and the answer is that item.
    Needs,
    /// The bytes are no header.
    NoHeader,
    /// The bytes are no call or no calls, or a call breaks a rule of calls.
    NoCall,
    /// The bytes are no list of items with their values.
    NoItems,
    /// The text of a trace would be too long.
    TooLong,
}

impl Status {
    /// Its number, as `include/avm.h` has it.
    pub fn number(self) -> u32
        ensures { result ≡ status_number self }
    {
        match self {
            Status::Done => 0,
            Status::Refused => 1,
            Status::Usage => 2,
            Status::Memory => 3,
            Status::NoRoom => 4,
            Status::Propose => 5,
            Status::NoText => 6,
            Status::NotAssembled => 7,
            Status::NoProgram => 8,
            Status::NoLedger => 9,
            Status::NoBlock => 10,
            Status::WrongBase => 11,
            Status::WrongOutcome => 12,
            Status::WrongState => 13,
            Status::NoEntry => 14,
            Status::NoRun => 15,
            Status::Ended => 16,
            Status::Needs => 17,
            Status::NoHeader => 18,
            Status::NoCall => 19,
            Status::NoItems => 20,
            Status::TooLong => 21,
        }
    }
}
