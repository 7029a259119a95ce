//! The commands of the program.

ghost use Rattle.std.specs.Prelude.{◌≡◌, IfOk, IfSome, IsSome, None, Some, map};
ghost use Rattle.avm_input.specs.Answers.{CommandAnswers, CommandFails, IsReply};
ghost use Rattle.avm_commands.specs.Answers.{IsCommandReply};
ghost use Rattle.avm_input.specs.CommandLine.{command_in, workers_of};
ghost use Rattle.avm_input.specs.Replies.{failed, usage_reply};
ghost use Rattle.avm_input.specs.Shown.{reply_shown};

use crate::asm::asm_reply;
use crate::block_commands::{replay_reply, state_reply};
use crate::debug_command::debug_reply;
use crate::programs::{check_reply, dis_reply};
use avm_input::{
    FAILED, INPUT_LIMIT, NodeCommand, Reply, USAGE, command_in, input_refusal, read_input,
    workers_of, write_reply,
};
use avm_ops::Op;
use avm_run::FullOps;
use std::alloc::{AllocError, Global};
use std::io::{self, Read, Write};

const USAGE_TEXT: &str = "usage: avm asm|dis|check|propose|replay|debug|state\n";

/// Executes the command that the words after the program's name are, and gives the exit status; or nothing, where it is
/// `propose`, which wants threads.
///
/// A failed or interrupted read and refused memory give status 3, with nothing written; so does a failed write, before
/// which a beginning of the answer may have been written. Words that are no command read nothing. The set has an object of
/// every opcode.
///
/// `EXITS` says whether the process ends with the answer. If so, the ledger and the block that were read are left to the
/// operating system, which takes all memory back at once: to give it back piece by piece takes a part of a command's time.
pub fn answer<'a, R: Read, W: Write, O: Op, const EXITS: bool>(
    alloc: Global,
    words: &'a [&'a str],
    reader: &mut R,
    writer: &mut W,
    ops: &FullOps<O>,
) -> Option<u8>
    ensures answers { IfSome result (CommandAnswers usage_reply IsCommandReply
        (command_in (map (λ word. word.now) words.now))
        (R.remaining reader.old) (W.contents writer.old) (W.contents writer.new)) }
    ensures fails { IfSome result (λ status. status ≡ failed → CommandFails usage_reply
        IsCommandReply (command_in (map (λ word. word.now) words.now)) (R.remaining reader.old)
        (W.contents writer.old) (W.contents writer.new) writer.old writer.new) }
    ensures other { IfSome result (λ status.
        IsSome (workers_of (command_in (map (λ word. word.now) words.now))) → status ≡ failed) }
    ensures propose { result ≡ None
        → IsSome (workers_of (command_in (map (λ word. word.now) words.now)))
        × (reader.new ≡ reader.old) × (writer.new ≡ writer.old) }
    ensures reads_nothing { command_in (map (λ word. word.now) words.now) ≡ None
        → reader.new ≡ reader.old }
{
    match command_in(alloc, words) {
        Ok(command) => match workers_of(command) {
            Some(_workers) => None,
            None => Some(answer_to::<R, W, O, EXITS>(alloc, command, reader, writer, ops)),
        },
        Err(_) => Some(FAILED),
    }
}

/// Executes a command that is not `propose`, as [`answer`] does.
pub fn answer_to<R: Read, W: Write, O: Op, const EXITS: bool>(
    alloc: Global,
    command: Option<NodeCommand>,
    reader: &mut R,
    writer: &mut W,
    ops: &FullOps<O>,
) -> u8
    requires other { workers_of command ≡ None }
    ensures answers { CommandAnswers usage_reply IsCommandReply command
        (R.remaining reader.old) (W.contents writer.old) (W.contents writer.new) result }
    ensures fails { result ≡ failed
        → CommandFails usage_reply IsCommandReply command (R.remaining reader.old)
        (W.contents writer.old) (W.contents writer.new) writer.old writer.new }
    ensures reads_nothing { command ≡ None → reader.new ≡ reader.old }
{
    match command {
        None => write_reply(writer, USAGE_TEXT.as_bytes(), USAGE),
        Some(command) => match reply_of::<R, O, EXITS>(alloc, command, reader, ops) {
            Ok(reply) => write_reply(writer, reply.text.as_slice(), reply.status),
            Err(_) => FAILED,
        },
    }
}

/// What a command answers to its whole input.
fn reply_of<R: Read, O: Op, const EXITS: bool>(
    alloc: Global,
    command: NodeCommand,
    reader: &mut R,
    ops: &FullOps<O>,
) -> io::Result<Reply>
    requires other { workers_of (Some command) ≡ None }
    ensures { IfOk result
        (λ reply. IsReply (IsCommandReply command) (R.remaining reader.old) (reply_shown reply)) }
{
    let input = read_input(alloc, reader)?;
    if input.len() > INPUT_LIMIT {
        return Ok(input_refusal(alloc)?);
    }
    Ok(command_reply::<O, EXITS>(alloc, command, input, ops)?)
}

/// What a command answers to an input that is not too long.
fn command_reply<O: Op, const EXITS: bool>(
    alloc: Global,
    command: NodeCommand,
    input: Vec<u8>,
    ops: &FullOps<O>,
) -> Result<Reply, AllocError>
    requires other { workers_of (Some command) ≡ None }
    ensures { IfOk result (λ reply. IsCommandReply command input.items (reply_shown reply)) }
{
    match command {
        NodeCommand::Asm => asm_reply(alloc, input.as_slice()),
        NodeCommand::Dis => dis_reply(alloc, input.as_slice()),
        NodeCommand::Check => check_reply(alloc, input.as_slice()),
        NodeCommand::Replay => replay_reply::<O, EXITS>(alloc, input, ops),
        NodeCommand::Debug { entry, steps } => debug_reply::<O, EXITS>(
            alloc, entry, steps, input, ops,
        ),
        NodeCommand::State(timestamp) => state_reply::<O, EXITS>(alloc, timestamp, input, ops),
        NodeCommand::Propose(_workers) => unreachable!(),
    }
}
