//! Documents written token by token.

ghost use Rattle.std.specs.Prelude.{◌≡◌, ◌∷◌, ◌++◌, ◌<◌, ◌≤◌, [], IfOk, OnOk, codes, string_bytes, true};
ghost use Rattle.json.specs.Json.{null};
ghost use Rattle.json.specs.Layout.{pretty};
ghost use Rattle.json.specs.Print.{IsPrintable};
ghost use Rattle.json.specs.Reads.{token_of};
ghost use Rattle.json.specs.Token.{begin_array, begin_object, end_array, end_object, key};
ghost use Rattle.json.specs.Tree.{json_tokens};
ghost use Rattle.json_views.specs.Writing.{Adds};
ghost use Rattle.json_views.specs.Documents.{address, base64, digits, member_tokens, text, uint};
ghost use Rattle.json_views.specs.Weights.{most_text, token_weight, tokens_weight};

use base64::engine::general_purpose::STANDARD;
use json::{Pretty, Token};
use std::alloc::{AllocError, Global};
use std::marker::Model;
use teal_value::{Address, address_text};

/// How many bytes the text of a trace, a run or a page may have: 64 MiB.
pub const TEXT_LIMIT: u64 = 67_108_864;

/// A document that is being written, token by token, with how many bytes its text surely has by now, so that one that gets too
/// long is left early.
#[derive(Drop)]
pub struct Writer {
    out: Pretty,
    weight: u64,
}

impl Model for Writer {
    ghost use Rattle.std.specs.Prelude.{◌≤◌, List};
    ghost use Rattle.json.specs.Token.{Token as SpecToken, tokens_code};
    ghost use Rattle.json_views.specs.Weights.{tokens_weight};

    ghost Value = { List SpecToken };

    ghost coded = { tokens_code };

    ghost view = { λ w. w.out };

    ghost invariant = { λ w. w.weight ≤ tokens_weight w.out };
}

impl Writer {
    /// A document of which nothing is written yet.
    pub fn new(alloc: Global) -> Writer
        ensures { result ≡ [] }
    {
        Writer {
            out: Pretty::new(alloc),
            weight: 0,
        }
    }

    fn token(&mut self, token: Token<'_>) -> Result<(), AllocError>
        requires { IsPrintable (token_of token) }
        ensures { OnOk result (self.new ≡ self.old ++ token_of token.entry ∷ []) }
    {
        let weight = weight_of(token);
        self.out.token(token)?;
        self.weight = self.weight.saturating_add(weight);
        Ok(())
    }

    /// Whether the text is surely longer than a text may be, however it goes on.
    pub fn is_too_long(&self) -> bool
        ensures { result ≡ true → most_text < tokens_weight self.now }
    {
        self.weight > TEXT_LIMIT
    }
}

/// How many bytes the text of a token surely has.
fn weight_of(token: Token<'_>) -> u64
    ensures { result ≤ token_weight (token_of token.entry) }
{
    match token {
        Token::Key(name) => (name.len() as u64).saturating_add(3),
        Token::String(content) => (content.len() as u64).saturating_add(2),
        Token::Number(digits) => digits.len() as u64,
        Token::Bad => 0,
        _ => 1,
    }
}

pub fn begin_object(out: &mut Writer) -> Result<(), AllocError>
    ensures { OnOk result (Adds out.old out.new (begin_object ∷ [])) }
{
    out.token(Token::BeginObject)
}

pub fn end_object(out: &mut Writer) -> Result<(), AllocError>
    ensures { OnOk result (Adds out.old out.new (end_object ∷ [])) }
{
    out.token(Token::EndObject)
}

pub fn begin_array(out: &mut Writer) -> Result<(), AllocError>
    ensures { OnOk result (Adds out.old out.new (begin_array ∷ [])) }
{
    out.token(Token::BeginArray)
}

pub fn end_array(out: &mut Writer) -> Result<(), AllocError>
    ensures { OnOk result (Adds out.old out.new (end_array ∷ [])) }
{
    out.token(Token::EndArray)
}

/// The name of a member, whose value is to follow.
pub fn put_name(out: &mut Writer, name: &str) -> Result<(), AllocError>
    ensures { OnOk result (Adds out.old out.new (key name.now ∷ [])) }
{
    out.token(Token::Key(name))
}

pub fn put_uint(out: &mut Writer, number: u64) -> Result<(), AllocError>
    ensures { OnOk result (Adds out.old out.new (json_tokens (uint number))) }
{
    let mut buffer = itoa::Buffer::new();
    out.token(Token::Number(buffer.format(number)))
}

pub fn put_text(out: &mut Writer, content: &str) -> Result<(), AllocError>
    ensures { OnOk result (Adds out.old out.new (json_tokens (text content.now))) }
{
    out.token(Token::String(content))
}

/// No value.
pub fn put_null(out: &mut Writer) -> Result<(), AllocError>
    ensures { OnOk result (Adds out.old out.new (json_tokens null)) }
{
    out.token(Token::Null)
}

/// Bytes in base64.
pub fn put_base64(alloc: Global, out: &mut Writer, bytes: &[u8]) -> Result<(), AllocError>
    ensures { OnOk result (Adds out.old out.new (json_tokens (base64 bytes.now))) }
{
    let text = STANDARD.encode(alloc, bytes)?;
    put_text(out, text.as_str())
}

pub fn put_address(alloc: Global, out: &mut Writer, who: &Address) -> Result<(), AllocError>
    ensures { OnOk result (Adds out.old out.new (json_tokens (address who.now))) }
{
    let text = address_text(alloc, who)?;
    put_text(out, text.as_str())
}

/// A member that is a number.
pub fn put_uint_member(out: &mut Writer, name: &str, number: u64) -> Result<(), AllocError>
    ensures { OnOk result (Adds out.old out.new (member_tokens ((name.now, uint number) ∷ []))) }
{
    put_name(out, name)?;
    put_uint(out, number)
}

/// A member that is a text.
pub fn put_text_member(out: &mut Writer, name: &str, content: &str) -> Result<(), AllocError>
    ensures { OnOk result
        (Adds out.old out.new (member_tokens ((name.now, text content.now) ∷ []))) }
{
    put_name(out, name)?;
    put_text(out, content)
}

/// A member that is bytes in base64.
pub fn put_base64_member(
    alloc: Global,
    out: &mut Writer,
    name: &str,
    bytes: &[u8],
) -> Result<(), AllocError>
    ensures { OnOk result
        (Adds out.old out.new (member_tokens ((name.now, base64 bytes.now) ∷ []))) }
{
    put_name(out, name)?;
    put_base64(alloc, out, bytes)
}

/// A member that is bytes in hexadecimal digits.
pub fn put_digits_member(
    alloc: Global,
    out: &mut Writer,
    name: &str,
    bytes: &[u8],
) -> Result<(), AllocError>
    ensures { OnOk result
        (Adds out.old out.new (member_tokens ((name.now, digits bytes.now) ∷ []))) }
{
    put_name(out, name)?;
    let text = hex::encode(alloc, bytes)?;
    put_text(out, text.as_str())
}

/// A member that is an address.
pub fn put_address_member(
    alloc: Global,
    out: &mut Writer,
    name: &str,
    who: &Address,
) -> Result<(), AllocError>
    ensures { OnOk result
        (Adds out.old out.new (member_tokens ((name.now, address who.now) ∷ []))) }
{
    put_name(out, name)?;
    put_address(alloc, out, who)
}

/// The text of a document, with a line feed at its end.
pub fn document_text(out: Writer) -> Result<String, AllocError>
    ensures { IfOk result (λ text. string_bytes text ≡ pretty out ++ codes "\n") }
{
    match String::from_utf8(out.out.into_inner()) {
        Ok(mut text) => {
            text.push('\n')?;
            Ok(text)
        }
        Err(_) => unreachable!(),
    }
}
