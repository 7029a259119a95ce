//! What can be read back from a page.

ghost use Rattle.json_commands.specs.ReadingBack.{Base64ReadsBack, PagesReadBack};

/// What bytes are in base64 has characters of its alphabet alone, and is decoded to these bytes (RFC 4648, section 4).
pub fn base64_reads_back()
    ensures { Base64ReadsBack }
{}

/// Between the two fixed texts of a page stand characters of base64's alphabet alone, and what is read back there is its document.
pub fn pages_read_back()
    ensures { PagesReadBack }
{}
