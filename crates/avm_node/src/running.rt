//! Running the program's commands, those among them that start threads.

ghost use Rattle.std.specs.Prelude.{◌≡◌, IfOk, None, map};
ghost use Rattle.avm_input.specs.Answers.{CommandAnswers, CommandFails, IsReply};
ghost use Rattle.avm_input.specs.Replies.{failed, usage_reply};
ghost use Rattle.avm_input.specs.CommandLine.{command_in};
ghost use Rattle.avm_input.specs.declared.command_line.NodeCommand.TheVariants.{Propose};
ghost use Rattle.avm_node.specs.ProposeShown.{reply_shown};
ghost use Rattle.avm_node.specs.Answers.{IsNodeReply};
ghost use Rattle.avm_node.specs.WorkerSets.{AreSets, AreWorkerSets};

use crate::propose_command::{ProposeReply, propose_reply};
use avm_commands::answer_to;
use avm_input::{FAILED, INPUT_LIMIT, command_in, input_refusal, read_input, workers_of};
use avm_ops::{Op, Ops};
use avm_run::FullOps;
use std::alloc::Global;
use std::io::{self, Read, Write};
use std::sync::Wait;
use std::thread::Threads;

/// Executes the command that the words after the program's name are, and gives the exit status, as [`answer`](crate::answer) does
/// but for `propose`, whose calls are executed in as many threads as it has workers.
///
/// There are nine sets with an object of every opcode: one for each worker, and the last for the thread that calls.
pub fn run<'a, T: Threads + Wait + Sync, R: Read, W: Write, O: Op, const EXITS: bool>(
    rt: &T,
    alloc: Global,
    words: &'a [&'a str],
    reader: &mut R,
    writer: &mut W,
    mut sets: Vec<Ops<O>>,
) -> u8
    requires sets { AreSets O.opcode sets.items }
    ensures answers { CommandAnswers usage_reply IsNodeReply
        (command_in (map (λ word. word.now) words.now))
        (R.remaining reader.old) (W.contents writer.old) (W.contents writer.new) result }
    ensures fails { result ≡ failed → CommandFails usage_reply IsNodeReply
        (command_in (map (λ word. word.now) words.now)) (R.remaining reader.old)
        (W.contents writer.old) (W.contents writer.new) writer.old writer.new }
    ensures reads_nothing { command_in (map (λ word. word.now) words.now) ≡ None
        → reader.new ≡ reader.old }
{
    let Some(own) = sets.pop() else {
        unreachable!()
    };
    match command_in(alloc, words) {
        Ok(command) => match workers_of(command) {
            Some(workers) => {
                sets.truncate(usize::from(workers));
                match proposed::<T, R, O, EXITS>(rt, alloc, workers, reader, sets, own) {
                    Ok(reply) => reply.write(alloc, writer),
                    Err(_) => FAILED,
                }
            }
            None => answer_to::<R, W, O, EXITS>(
                alloc,
                command,
                reader,
                writer,
                &FullOps::from_full(own),
            ),
        },
        Err(_) => FAILED,
    }
}

/// What `propose` answers to its whole input.
fn proposed<T: Threads + Wait + Sync, R: Read, O: Op, const EXITS: bool>(
    rt: &T,
    alloc: Global,
    workers: u8,
    reader: &mut R,
    sets: Vec<Ops<O>>,
    own: Ops<O>,
) -> io::Result<ProposeReply>
    requires sets { AreWorkerSets O.opcode sets.items own }
    ensures { IfOk result (λ reply.
        IsReply (IsNodeReply (Propose workers)) (R.remaining reader.old) (reply_shown reply)) }
{
    let input = read_input(alloc, reader)?;
    if input.len() > INPUT_LIMIT {
        let reply = input_refusal(alloc)?;
        return Ok(ProposeReply::without_block(alloc, reply));
    }
    Ok(propose_reply::<T, O, EXITS>(rt, alloc, input, sets, own)?)
}
