//! The lines, tokens, numbers and byte literals of TEAL source text (TEAL specification, "Assembler syntax").
//!
//! What each call gives is a function of the text's bytes: `specs/Lines.antt` over `specs/Tokens.antt`, read
//! one by one in `specs/Unread.antt`,
//! `specs/Numbers.antt`, and `specs/Literals.antt` over `specs/Strings.antt`. Laws about these functions are contracts of
//! calls that do nothing: where tokens lie, and that what a listing is made of reads back.
#![tactic(auto)]

mod fault;
mod line;
mod literal;
mod numbers;
mod scan;
mod string;
mod text;
mod token;
mod unread;

pub use fault::{TextError, TextFault, TextFaultKind};
pub use line::{Line, first_line, plain_words_read_back, tokens_lie_in_order};
pub use literal::{
    base64_bytes, byte_literal, encoded_bytes, literals_read_back, names_encoding, token_bytes,
};
pub use numbers::{decimal_reads_back, number, number_of_word};
pub use text::lines;
pub use token::Token;
pub use unread::Lines;
