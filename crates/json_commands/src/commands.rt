//! The commands of the program `avm_json`.

ghost use Rattle.std.specs.Prelude.{◌≡◌, IfOk, None, map};
ghost use Rattle.avm_input.specs.Answers.{CommandAnswers, CommandFails, IsReply};
ghost use Rattle.avm_input.specs.Replies.{failed};
ghost use Rattle.avm_input.specs.Shown.{reply_shown};
ghost use Rattle.avm_input.specs.JsonCommandLine.{json_command_in};
ghost use Rattle.json_commands.specs.Commands.{IsJsonReply, usage_reply};

use crate::page::page_reply;
use avm_input::{
    FAILED, INPUT_LIMIT, JsonCommand, Reply, USAGE, input_refusal, json_command_in, read_input,
    write_reply,
};
use avm_ops::Op;
use avm_run::FullOps;
use json_documents::lines_reply;
use json_views::{run_reply, show_reply, trace_reply};
use std::alloc::{AllocError, Global};
use std::io::{self, Read, Write};

const USAGE_TEXT: &str = "usage: avm_json lines|show|run|trace [--entry N]|page [--entry N]\n";

/// Executes the command that the words after the program's name are, and gives the exit status.
///
/// A failed or interrupted read and refused memory give status 3, with nothing written; so does a failed write, before
/// which a beginning of the answer may have been written. Words that are no command read nothing.
pub fn answer<'a, R: Read, W: Write, O: Op>(
    alloc: Global,
    words: &'a [&'a str],
    reader: &mut R,
    writer: &mut W,
    ops: &FullOps<O>,
) -> u8
    ensures answers { CommandAnswers usage_reply IsJsonReply
        (json_command_in (map (λ word. word.now) words.now))
        (R.remaining reader.old) (W.contents writer.old) (W.contents writer.new) result }
    ensures fails { result ≡ failed → CommandFails usage_reply IsJsonReply
        (json_command_in (map (λ word. word.now) words.now))
        (R.remaining reader.old) (W.contents writer.old)
        (W.contents writer.new) writer.old writer.new }
    ensures reads_nothing { json_command_in (map (λ word. word.now) words.now) ≡ None
        → reader.new ≡ reader.old }
{
    match json_command_in(alloc, words) {
        Ok(command) => answer_to(alloc, command, reader, writer, ops),
        Err(_) => FAILED,
    }
}

/// Executes a command, or writes the usage line, as [`answer`] does.
fn answer_to<R: Read, W: Write, O: Op>(
    alloc: Global,
    command: Option<JsonCommand>,
    reader: &mut R,
    writer: &mut W,
    ops: &FullOps<O>,
) -> u8
    ensures answers { CommandAnswers usage_reply IsJsonReply command
        (R.remaining reader.old) (W.contents writer.old) (W.contents writer.new) result }
    ensures fails { result ≡ failed → CommandFails usage_reply IsJsonReply command
        (R.remaining reader.old) (W.contents writer.old)
        (W.contents writer.new) writer.old writer.new }
    ensures reads_nothing { command ≡ None → reader.new ≡ reader.old }
{
    match command {
        None => write_reply(writer, USAGE_TEXT.as_bytes(), USAGE),
        Some(command) => match reply_of(alloc, command, reader, ops) {
            Ok(reply) => write_reply(writer, reply.text.as_slice(), reply.status),
            Err(_) => FAILED,
        },
    }
}

/// What a command answers to its whole input.
fn reply_of<R: Read, O: Op>(
    alloc: Global,
    command: JsonCommand,
    reader: &mut R,
    ops: &FullOps<O>,
) -> io::Result<Reply>
    ensures { IfOk result
        (λ reply. IsReply (IsJsonReply command) (R.remaining reader.old) (reply_shown reply)) }
{
    let input = read_input(alloc, reader)?;
    if input.len() > INPUT_LIMIT {
        return Ok(input_refusal(alloc)?);
    }
    Ok(command_reply(alloc, command, input, ops)?)
}

/// What a command answers to an input that is not too long.
fn command_reply<O: Op>(
    alloc: Global,
    command: JsonCommand,
    input: Vec<u8>,
    ops: &FullOps<O>,
) -> Result<Reply, AllocError>
    ensures { IfOk result (λ reply. IsJsonReply command input.items (reply_shown reply)) }
{
    match command {
        JsonCommand::Lines => lines_reply(alloc, input.as_slice()),
        JsonCommand::Show => show_reply(alloc, input.as_slice()),
        JsonCommand::Run => run_reply(alloc, input.as_slice(), ops),
        JsonCommand::Trace(entry) => trace_reply(alloc, entry, input, ops),
        JsonCommand::Page(entry) => page_reply(alloc, entry, input, ops),
    }
}
