//! That what is shown as JSON is read back.

ghost use Rattle.json_laws.specs.ReadBack.{EmptyDocumentsAreRead, ShownBlocksReadBack, ShownInputsReadBack, ShownLedgersReadBack};

/// A document that shows a ledger that keeps the rules, and is of bytes, is read as this ledger, with the header of a document
/// that gives none, and no calls. The document without members is read as the ledger without applications, with this header.
pub fn shown_ledgers_read_back()
    ensures shown { ShownLedgersReadBack }
    ensures empty { EmptyDocumentsAreRead }
{}

/// A document that shows such a ledger, and a block within its limits whose calls break no rule and are of bytes, is read as
/// this ledger, the header of the block and its calls. A header of profile 2 is read as one of profile 3.
pub fn shown_blocks_read_back()
    ensures { ShownBlocksReadBack }
{}

/// What `show` shows of any input, `lines` reads back: its lines are those of the ledger, and of the block's header and calls;
/// without a block those of the header of a document that gives none, and of no calls. Nothing is asked of the input but that
/// `show` does not refuse it. The limit on inputs is apart: `lines_reply` does not ask how long the document is.
pub fn shown_inputs_read_back()
    ensures { ShownInputsReadBack }
{}
