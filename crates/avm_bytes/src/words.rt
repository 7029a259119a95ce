//! What is answered to words of the command lines.

ghost use Rattle.std.specs.Prelude.{◌≡◌, IfOk, map};
ghost use Rattle.avm_ops.specs.OpSets.{IsFull};
ghost use Rattle.avm_input.specs.CommandLine.{command_in};
ghost use Rattle.avm_input.specs.JsonCommandLine.{json_command_in};
ghost use Rattle.avm_bytes.specs.Shown.{answer_shown};
ghost use Rattle.avm_bytes.specs.WordAnswers.{IsCommandAnswer, IsJsonAnswer, words_of};

use crate::answers::{Answer, refusal};
use crate::questions::Question;
use crate::statuses::Status;
use avm_commands::answer;
use avm_input::FAILED;
use avm_ops::{Op, OpSet, Ops};
use avm_run::FullOps;
use std::alloc::{AllocError, Global};
use std::str;

/// What the program `avm` writes for words, parted by zero bytes, and an input.
#[derive(Drop)]
pub struct AvmWords<'a> {
    pub words: &'a [u8],
    pub input: &'a [u8],
}

impl Question for AvmWords<'_> {
    type Answer = Answer;

    ghost use Rattle.avm_bytes.specs.Shown.{answer_shown};
    ghost use Rattle.avm_bytes.specs.WordAnswers.{IsCommandAnswer, command_of};

    ghost answers = { λ asked answer.
        IsCommandAnswer (command_of asked.words.now) asked.input.now (answer_shown answer) };

    fn answer(&self, alloc: Global, ops: OpSet) -> Result<Answer, AllocError> {
        let words = words_of(alloc, self.words)?;
        answer_with(alloc, words.as_slice(), self.input, ops)
    }
}

/// What the program `avm_json` writes for words, parted by zero bytes, and an input.
#[derive(Drop)]
pub struct JsonWords<'a> {
    pub words: &'a [u8],
    pub input: &'a [u8],
}

impl Question for JsonWords<'_> {
    type Answer = Answer;

    ghost use Rattle.avm_bytes.specs.Shown.{answer_shown};
    ghost use Rattle.avm_bytes.specs.WordAnswers.{IsJsonAnswer, json_command_of};

    ghost answers = { λ asked answer.
        IsJsonAnswer (json_command_of asked.words.now) asked.input.now (answer_shown answer) };

    fn answer(&self, alloc: Global, ops: OpSet) -> Result<Answer, AllocError> {
        let words = words_of(alloc, self.words)?;
        json_answer_with(alloc, words.as_slice(), self.input, ops)
    }
}

/// The words between zero bytes; none, where the bytes are no UTF-8.
fn words_of<'a>(alloc: Global, bytes: &'a [u8]) -> Result<Vec<&'a str>, AllocError>
    ensures { IfOk result (λ words. map (λ word. word.now) words.items ≡ words_of bytes.now) }
{
    match str::from_utf8(bytes) {
        Ok(text) => text.split('\0').collect(alloc),
        Err(_) => Ok(Vec::new(alloc)),
    }
}

/// What is answered to words and an input, with a full set.
fn answer_with<'a, O: Op>(
    alloc: Global,
    words: &'a [&'a str],
    input: &[u8],
    ops: Ops<O>,
) -> Result<Answer, AllocError>
    requires full { IsFull O.opcode ops }
    ensures { IfOk result (λ answer. IsCommandAnswer
        (command_in (map (λ word. word.now) words.now)) input.now (answer_shown answer)) }
{
    let ops = FullOps::from_full(ops);
    let mut reader = input;
    let mut text = Vec::new(alloc);
    match answer::<_, _, _, false>(alloc, words, &mut reader, &mut text, &ops) {
        None => Ok(refusal(alloc, Status::Propose)),
        Some(FAILED) => Err(AllocError),
        Some(status) => Ok(Answer {
            status: u32::from(status),
            bytes: text,
        }),
    }
}

/// What `avm_json` answers to words and an input, with a full set.
fn json_answer_with<'a, O: Op>(
    alloc: Global,
    words: &'a [&'a str],
    input: &[u8],
    ops: Ops<O>,
) -> Result<Answer, AllocError>
    requires full { IsFull O.opcode ops }
    ensures { IfOk result (λ answer. IsJsonAnswer
        (json_command_in (map (λ word. word.now) words.now)) input.now (answer_shown answer)) }
{
    let ops = FullOps::from_full(ops);
    let mut reader = input;
    let mut text = Vec::new(alloc);
    let status = json_commands::answer(alloc, words, &mut reader, &mut text, &ops);
    if status == FAILED {
        return Err(AllocError);
    }
    Ok(Answer {
        status: u32::from(status),
        bytes: text,
    })
}
