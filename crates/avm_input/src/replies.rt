//! Replies, and writing them.

ghost use Rattle.std.specs.Prelude.{◌≡◌, ◌≢◌, ◌≤◌, ◌++◌, IfOk, IfSome, IsTrue, None, length, take};
ghost use Rattle.std.specs.Io.KnownBytes.{Appends, Keeps};
ghost use Rattle.hex.specs.Hex.{encode_lower};
ghost use Rattle.avm_input.specs.Answers.{HasBeginning, IsBegun, IsWritten};
ghost use Rattle.avm_input.specs.Replies.{failed, input_refusal};
ghost use Rattle.avm_input.specs.Shown.{reply_shown};

use crate::digits::add_digits;
use std::alloc::{AllocError, Global};
use std::io::{ErrorKind, Write};

/// The bytes of a text to write, and an exit status. A `String` would test long lines of digits for being UTF-8.
#[derive(Drop)]
pub struct Reply {
    pub text: Vec<u8>,
    pub status: u8,
}

/// The exit status of a command that did its work.
pub const DONE: u8 = 0;

/// The exit status of a command that refused its input.
pub const REFUSED: u8 = 1;

/// The exit status of a wrong command line.
pub const USAGE: u8 = 2;

/// The exit status of a failed read or write, and where memory was refused.
pub const FAILED: u8 = 3;

/// How many bytes are encoded and written at once: so many that a long line takes few writes, and so few that its digits stand
/// in a near cache.
const PIECE: usize = 16_384;

/// The refusal of an input that is too long, or of text that is no UTF-8.
pub fn input_refusal(alloc: Global) -> Result<Reply, AllocError>
    ensures { IfOk result (λ reply. reply_shown reply ≡ input_refusal) }
{
    let text = String::from_str(alloc, "refused input\n")?;
    Ok(Reply {
        text: text.into_bytes(),
        status: REFUSED,
    })
}

/// Writes a text, and gives the status that goes with it, or that of a failed write, before which a beginning of the text
/// may have been written.
pub fn write_reply<W: Write>(writer: &mut W, text: &[u8], status: u8) -> u8
    ensures written { result ≢ failed → IsWritten (record { text = text.now; status = status })
        (W.contents writer.old) (W.contents writer.new) result }
    ensures begun { IsBegun (record { text = text.now; status = status })
        (W.contents writer.old) (W.contents writer.new) }
{
    if write_text(writer, text) {
        status
    } else {
        FAILED
    }
}

/// Writes the digits of bytes, in lower case, and a text behind them, as [`write_reply`] writes a text. The digits are made
/// piece by piece, so that a long line of them never stands in memory as a whole.
pub fn write_digits_reply<W: Write>(
    alloc: Global,
    writer: &mut W,
    bytes: &[u8],
    text: &[u8],
    status: u8,
) -> u8
    ensures written { result ≢ failed
        → IsWritten (record { text = encode_lower bytes.now ++ text.now; status = status })
        (W.contents writer.old) (W.contents writer.new) result }
    ensures begun { IsBegun (record { text = encode_lower bytes.now ++ text.now; status = status })
        (W.contents writer.old) (W.contents writer.new) }
{
    if !write_digits(alloc, writer, bytes) {
        return FAILED;
    }
    write_reply(writer, text, status)
}

/// Writes the digits of bytes, or a beginning of them, and says whether all of them were written. Where memory is refused,
/// nothing is.
fn write_digits<W: Write>(alloc: Global, writer: &mut W, bytes: &[u8]) -> bool
    ensures written { IsTrue result
        → Appends (W.contents writer.old) (W.contents writer.new) (encode_lower bytes.now) }
    ensures begun { HasBeginning (encode_lower bytes.now)
        (W.contents writer.old) (W.contents writer.new) }
{
    let Ok(mut digits) = Vec::with_capacity(alloc, 2 * PIECE) else {
        return false;
    };
    let mut rest = bytes;
    while !rest.is_empty() {
        let (front, back) = rest.split_at(rest.len().min(PIECE));
        if !write_piece(writer, &mut digits, front) {
            return false;
        }
        rest = back;
    }
    true
}

/// Writes the digits of some bytes, or a beginning of them, and says whether all of them were written. They are put together
/// in a list that is given.
fn write_piece<W: Write>(writer: &mut W, digits: &mut Vec<u8>, bytes: &[u8]) -> bool
    ensures written { IsTrue result
        → Appends (W.contents writer.old) (W.contents writer.new) (encode_lower bytes.now) }
    ensures begun { HasBeginning (encode_lower bytes.now)
        (W.contents writer.old) (W.contents writer.new) }
{
    digits.clear();
    match add_digits(digits, bytes) {
        Ok(()) => write_part(writer, digits.as_slice()),
        Err(_) => false,
    }
}

/// Writes a text, or a beginning of it, and says whether all of it was written and handed on.
fn write_text<W: Write>(writer: &mut W, text: &[u8]) -> bool
    ensures written { IsTrue result
        → Appends (W.contents writer.old) (W.contents writer.new) text.now }
    ensures begun { HasBeginning text.now (W.contents writer.old) (W.contents writer.new) }
{
    write_part(writer, text) && writer.flush().is_ok()
}

/// Writes a part of a text, or a beginning of it, and says whether all of it was written.
fn write_part<W: Write>(writer: &mut W, part: &[u8]) -> bool
    ensures written { IsTrue result
        → Appends (W.contents writer.old) (W.contents writer.new) part.now }
    ensures begun { HasBeginning part.now (W.contents writer.old) (W.contents writer.new) }
{
    let mut rest = part;
    'writes: for _ in 0..u64::MAX {
        if rest.is_empty() {
            return true;
        }
        match write_some(writer, rest) {
            Some(count) => rest = &rest[count..],
            None => return false,
        }
    }
    false
}

/// Writes some bytes of a part, none where the write was interrupted and is to be tried again, and says how many; nothing
/// where it failed.
#[tactic(auto, using(crate::proofs::Written::kept_appends))]
fn write_some<W: Write>(writer: &mut W, part: &[u8]) -> Option<usize>
    ensures some { IfSome result (λ count. count ≤ length part.now) }
    ensures written { IfSome result
        (λ count. Appends (W.contents writer.old) (W.contents writer.new) (take count part.now)) }
    ensures failed { result ≡ None → Keeps (W.contents writer.old) (W.contents writer.new) }
{
    match writer.write(part) {
        Ok(0) => None,
        Ok(count) => Some(count),
        Err(error) if error.kind() == ErrorKind::Interrupted => Some(0),
        Err(_) => None,
    }
}
