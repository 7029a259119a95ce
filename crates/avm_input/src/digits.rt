//! Hexadecimal digits. They are read and written without a branch for each, so that many are at once.

ghost use Rattle.std.specs.Prelude.{ℕ, ◌≡◌, ◌≤◌, ◌<◌, ◌+◌, ◌*◌, ◌%◌, ◌++◌, IfOk, None, OnOk, Some, codes, if◌then◌else◌, length};
ghost use Rattle.std.specs.String.{string_bytes};
ghost use Rattle.std.specs.Option.{SomeIff, option_map};
ghost use Rattle.std.specs.Result.{result_ok};
ghost use Rattle.hex.specs.Hex.{decode_of, decode_pairs, encode_lower, hex_digit_value};
ghost use Rattle.avm_input.specs.BlockDigits.{AreHalves, digit_of};
ghost use Rattle.avm_input.specs.DigitPairs.{AreNumbers, AreRead, AreWords, DigitsAreWritten};

use std::alloc::{AllocError, Global};

/// How many bytes are read or written together: a fixed number, for which the compiler takes instructions that work on many at once.
const BLOCK: usize = 32;

/// How many bytes are zeroed and then written at once: so few that the nearest cache keeps them.
const PIECE: usize = 1024;

/// The bytes that digits of either case encode, where they are an even number of such digits.
pub fn decode_digits(alloc: Global, digits: &[u8]) -> Result<Option<Vec<u8>>, AllocError>
    ensures { IfOk result
        (λ bytes. option_map (λ v. v.items) bytes ≡ result_ok (decode_of digits.now)) }
{
    if digits.len() % 2 != 0 {
        return Ok(None);
    }
    let mut bytes = Vec::with_capacity(alloc, digits.len() / 2)?;
    let mut rest = digits;
    while rest.len() > 2 * PIECE {
        let (front, back) = rest.split_at(2 * PIECE);
        if !add_piece(&mut bytes, front)? {
            return Ok(None);
        }
        rest = back;
    }
    let read = add_piece(&mut bytes, rest)?;
    Ok(if read { Some(bytes) } else { None })
}

/// Adds the bytes that digits encode, and says whether all are digits; if not, it adds any bytes.
fn add_piece(bytes: &mut Vec<u8>, digits: &[u8]) -> Result<bool, AllocError>
    requires { length digits.now % 2 ≡ 0 }
    ensures { IfOk result
        (λ read. option_map (λ xs. bytes.old.items ++ xs) (result_ok (decode_pairs 0 digits.now))
        ≡ (if read then Some bytes.new.items else None)) }
{
    let start = bytes.len();
    bytes.resize(start + digits.len() / 2, 0)?;
    Ok(put_bytes(digits, bytes.slice_mut(start..)))
}

/// Writes the bytes that digits encode, and says whether all of them are digits; if not, it writes any bytes.
fn put_bytes(digits: &[u8], bytes: &mut [u8]) -> bool
    requires { length digits.now ≡ 2 * length bytes.old }
    ensures { result_ok (decode_pairs 0 digits.now) ≡ (if result then Some bytes.new else None) }
{
    let mut i = 0;
    let mut most = 0;
    while i < bytes.len() {
        if bytes.len() < BLOCK {
            most = put_pair(digits, bytes, i, most);
            i += 1;
        } else {
            // The last block ends where the bytes do. What it writes again stays the same.
            let start = i.min(bytes.len() - BLOCK);
            most = put_block(digits, bytes, start, most);
            i = start + BLOCK;
        }
    }
    most < 16
}

/// Writes the byte at an index, and answers the greatest number of its digits and of those before.
fn put_pair(digits: &[u8], bytes: &mut [u8], i: usize, before: u8) -> u8
    requires even { length digits.now ≡ 2 * length bytes.old }
    requires there { i < length bytes.old }
    ensures len { length bytes.new ≡ length bytes.old }
    ensures read { AreRead digits.now bytes.old i before
        → AreRead digits.now bytes.new (i + 1) result }
{
    let high = digit_number(digits[2 * i]);
    let low = digit_number(digits[2 * i + 1]);
    bytes[i] = high.wrapping_mul(16).wrapping_add(low);
    before.max(high).max(low)
}

/// Writes a block of bytes from an index on, and answers the greatest number of their digits and of those before.
fn put_block(digits: &[u8], bytes: &mut [u8], start: usize, before: u8) -> u8
    requires even { length digits.now ≡ 2 * length bytes.old }
    requires there { start + 32 ≤ length bytes.old }
    ensures len { length bytes.new ≡ length bytes.old }
    ensures read { (i : ℕ) → start ≤ i → i ≤ start + 32 → AreRead digits.now bytes.old i before
        → AreRead digits.now bytes.new (start + 32) result }
{
    let (numbers, most) = block_numbers(digits, 2 * start);
    put_pairs(&numbers, bytes, start);
    before.max(most)
}

/// The numbers of a block's digits from a place on, and the greatest of them.
fn block_numbers(digits: &[u8], place: usize) -> ([u8; 64], u8)
    requires { place + 64 ≤ length digits.now }
    ensures { AreNumbers digits.now place 64 result.0 result.1 }
{
    let mut numbers = [0; 64];
    let mut most = 0u8;
    'digits: for i in 0..64usize {
        let number = digit_number(digits[place + i]);
        numbers[i] = number;
        most = most.max(number);
    }
    (numbers, most)
}

/// Writes the bytes of a block's numbers from an index on.
fn put_pairs(numbers: &[u8; 64], bytes: &mut [u8], start: usize)
    requires { start + 32 ≤ length bytes.old }
    ensures len { length bytes.new ≡ length bytes.old }
    ensures written { DigitsAreWritten numbers.now bytes.old bytes.new start 32 }
{
    let words = pair_words(numbers);
    'words: for i in 0..BLOCK {
        let word = words[i];
        bytes[start + i] = (word.wrapping_mul(16).wrapping_add(word / 256) % 256) as u8;
    }
}

/// Pairs of numbers, each in a word, the first of them as its low byte: in words the compiler shifts many pairs at once.
fn pair_words(numbers: &[u8; 64]) -> [u16; 32]
    ensures { AreWords numbers.now result 32 }
{
    let mut words = [0; 32];
    'pairs: for i in 0..BLOCK {
        words[i] = numbers[2 * i] as u16 + numbers[2 * i + 1] as u16 * 256;
    }
    words
}

/// The value of a digit; 16 or more where it is none.
fn digit_number(digit: u8) -> u8
    ensures { SomeIff (hex_digit_value digit) (result < 16) result }
{
    // The digits `0` to `9` become 240 to 249, and no other byte more than 239.
    let number = digit.wrapping_add(198).saturating_sub(6).wrapping_sub(240);
    // A letter's lower case has one bit more.
    let letter = (digit | 32).wrapping_sub(b'a').saturating_add(10);
    number.min(letter)
}

/// A line of the digits of bytes, in lower case, with its line feed.
pub fn digit_line(alloc: Global, bytes: &[u8]) -> Result<String, AllocError>
    ensures { IfOk result (λ line. string_bytes line ≡ encode_lower bytes.now ++ codes "\n") }
{
    match String::from_utf8(digit_line_bytes(alloc, bytes)?) {
        Ok(line) => Ok(line),
        Err(_) => unreachable!(),
    }
}

/// A line of the digits of bytes, as [`digit_line`] makes it, without the test for UTF-8 that makes a text of it.
pub fn digit_line_bytes(alloc: Global, bytes: &[u8]) -> Result<Vec<u8>, AllocError>
    ensures { IfOk result (λ line. line.items ≡ encode_lower bytes.now ++ codes "\n") }
{
    let mut line = Vec::with_capacity(alloc, bytes.len().saturating_mul(2).saturating_add(1))?;
    add_digits(&mut line, bytes)?;
    line.push(b'\n')?;
    Ok(line)
}

/// Adds the digits of bytes.
pub(crate) fn add_digits(line: &mut Vec<u8>, bytes: &[u8]) -> Result<(), AllocError>
    ensures { OnOk result (line.new.items ≡ line.old.items ++ encode_lower bytes.now) }
{
    let mut rest = bytes;
    while rest.len() >= BLOCK {
        let (front, back) = rest.split_at(BLOCK);
        line.extend_from_slice(&block_digits(front))?;
        rest = back;
    }
    while let Some((byte, back)) = rest.split_first() {
        line.push(lower_digit(*byte / 16))?;
        line.push(lower_digit(*byte % 16))?;
        rest = back;
    }
    Ok(())
}

/// The digits of a block.
fn block_digits(bytes: &[u8]) -> [u8; 64]
    requires { length bytes.now ≡ 32 }
    ensures { result ≡ encode_lower bytes.now }
{
    let halves = block_halves(bytes);
    let mut digits = [0; 64];
    'digits: for i in 0..64usize {
        digits[i] = lower_digit(halves[i]);
    }
    digits
}

/// The two halves of each byte of a block.
fn block_halves(bytes: &[u8]) -> [u8; 64]
    requires { length bytes.now ≡ 32 }
    ensures { AreHalves bytes.now result 32 }
{
    let mut halves = [0; 64];
    'bytes: for i in 0..BLOCK {
        let byte = bytes[i];
        halves[2 * i] = byte / 16;
        halves[2 * i + 1] = byte % 16;
    }
    halves
}

/// The digit of a number below 16.
fn lower_digit(number: u8) -> u8
    requires { number < 16 }
    ensures { result ≡ digit_of number }
{
    let gap = if number < 10 { 0 } else { b'a' - 10 - b'0' };
    b'0' + number + gap
}
