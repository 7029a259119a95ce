//! Numbers of the source text.

ghost use Rattle.std.specs.Prelude.{◌≡◌, ◌<◌, ◌≤◌, ◌^◌, ℕ, Some};
ghost use Rattle.std.specs.Fmt.{decimal};
ghost use Rattle.teal_text.specs.Numbers.{base_of, digits_of, number_of, numeral_value};

/// The number that a word writes: decimal, hexadecimal behind `0x` or `0X`, or octal behind another `0`.
pub fn number(word: &str) -> Option<u64>
    ensures { result ≡ number_of word.now }
{
    number_of_word(word.as_bytes())
}

/// `number` of the bytes of a word.
pub fn number_of_word(word: &[u8]) -> Option<u64>
    ensures { result ≡ number_of word.now }
{
    let (base, digits) = base_and_digits(word);
    numeral_value(base, digits)
}

/// The law of `number`: the decimal text of a number reads as this number.
pub fn decimal_reads_back()
    ensures { (n : ℕ) → n < 2 ^ 64 → number_of (decimal n) ≡ Some n }
{}

/// The base of a word, and its digits.
#[tactic(auto, unfolding(crate::specs::Numbers::base_of, crate::specs::Numbers::digits_of))]
fn base_and_digits(word: &[u8]) -> (u32, &[u8])
    ensures base { result.0 ≡ base_of word.now }
    ensures range { (2 ≤ result.0) × (result.0 ≤ 16) }
    ensures digits { result.1.now ≡ digits_of word.now }
{
    match word {
        [b'0', b'x' | b'X', digits @ ..] => (16, digits),
        [b'0', digits @ ..] if !digits.is_empty() => (8, digits),
        _ => (10, word),
    }
}

/// The number that digits write, if it is below 2^64.
fn numeral_value(base: u32, digits: &[u8]) -> Option<u64>
    requires { (2 ≤ base) × (base ≤ 16) }
    ensures { result ≡ numeral_value base digits.now }
{
    if digits.is_empty() {
        return None;
    }
    let mut value = 0u64;
    for digit in digits {
        let digit = char::from(*digit).to_digit(base)?;
        value = value
            .checked_mul(u64::from(base))?
            .checked_add(u64::from(digit))?;
    }
    Some(value)
}
