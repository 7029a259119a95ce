//! What accepted documents keep, and that `propose` reads their lines.

ghost use Rattle.json_laws.specs.Accepted.{AcceptedDocumentsKeepTheRules, AcceptedTextsKeepTheRules};
ghost use Rattle.json_laws.specs.Executable.{AcceptedDocumentsMayBeExecuted, AcceptedTextsMayBeExecuted};
ghost use Rattle.json_laws.specs.OfBytes.{AcceptedDocumentsAreOfBytes, AcceptedTextsAreOfBytes};
ghost use Rattle.json_laws.specs.Proposed.{ProposeAnswersTexts, ProposeReadsDocuments, ProposeReadsReplies, ProposeReadsTexts};

/// What an accepted document says keeps the rules of ledgers, of headers and of calls, and has no more calls than a block takes.
pub fn accepted_documents_keep_the_rules()
    ensures values { AcceptedDocumentsKeepTheRules }
    ensures texts { AcceptedTextsKeepTheRules }
{}

/// The ledger and the calls of an accepted document are of bytes, programs from source text included, where its strings are;
/// so they are where its text is.
pub fn accepted_documents_are_of_bytes()
    ensures values { AcceptedDocumentsAreOfBytes }
    ensures texts { AcceptedTextsAreOfBytes }
{}

/// The calls of an accepted document of bytes may be executed over its ledger. Any number of them, from the first, lead to a
/// ledger that keeps the rules, and that is read back from its bytes where four bytes count its applications and local states.
pub fn accepted_documents_may_be_executed()
    ensures values { AcceptedDocumentsMayBeExecuted }
    ensures texts { AcceptedTextsMayBeExecuted }
{}

/// `propose` reads the lines of an accepted document of bytes as the ledger, the header and the calls that the document says,
/// where four bytes count its applications and local states; so they do where its text is no longer than an input may be. It
/// refuses such lines, unless they are longer than an input may be, for nothing but a lack of threads or timestamps.
pub fn propose_reads_accepted_documents()
    ensures values { ProposeReadsDocuments }
    ensures texts { ProposeReadsTexts }
    ensures replies { ProposeReadsReplies }
    ensures answers { ProposeAnswersTexts }
{}
