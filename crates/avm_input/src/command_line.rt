//! The words of the command line of `avm`, and what both programs read words by.

ghost use Rattle.std.specs.Prelude.{◌≡◌, ◌≢◌, ◌∷◌, [], Some, None, IfOk, codes, false, map};
ghost use Rattle.clap.specs.Words.{app_of, found_of, kind_of, rows_of, rule_of, subcommand_rows_of};
ghost use Rattle.clap.specs.declared.builder.command.Command.TheViews.{out-Command};
ghost use Rattle.avm_input.specs.CommandLine.{AreOneToEight, bare_line, command_found, command_in, command_line, command_named, debug_command, number_in, number_rule, numbered, program_line, propose_command, state_command, worker_count, workers_of};
ghost use Rattle.avm_input.specs.declared.command_line.NodeCommand.TheVariants.{Asm, Check, Debug, Dis, Propose, Replay, State};

use clap::error::ErrorKind;
use clap::{Arg, ArgAction, ArgMatches, Command, Error};
use std::alloc::{AllocError, Global};

/// A command of the program.
#[derive(Clone, Copy, Debug, PartialEq, Eq)]
pub enum NodeCommand {
    /// Assembles source text.
    Asm,
    /// Lists a program.
    Dis,
    /// Checks a program.
    Check,
    /// Replays a block over the ledger before it.
    Replay,
    /// Steps through the call of an entry of a block, over the ledger that it met.
    Debug {
        /// The entry's number, counted from 1.
        entry: u64,
        /// How many steps are made.
        steps: u64,
    },
    /// Gives the ledger after the calls of a block with timestamps up to this one.
    State(u64),
    /// Makes a block of calls, by this many workers.
    Propose(u8),
}

/// The command that the words after the program's name are, or none where they are to be answered with the usage line.
pub fn command_in<'a>(
    alloc: Global,
    words: &'a [&'a str],
) -> Result<Option<NodeCommand>, AllocError>
    ensures command { IfOk result
        (λ command. command ≡ command_in (map (λ word. word.now) words.now)) }
    ensures workers { IfOk result (λ command. AreOneToEight (workers_of command)) }
{
    match command_line(alloc)?.try_get_matches_from(words) {
        Ok(matches) => Ok(command_of(&matches)),
        Err(error) => no_command(&error),
    }
}

/// The command that was found in words, if there is one.
fn command_of(matches: &ArgMatches<'_>) -> Option<NodeCommand>
    ensures { result ≡ command_found command_named (subcommand_rows_of matches.now) }
{
    let (name, options) = matches.subcommand()?;
    command_named(name, options)
}

/// What refused words are: no command, unless it was memory that was refused.
pub(crate) fn no_command<C>(error: &Error) -> Result<Option<C>, AllocError>
    ensures { IfOk result
        (λ command. (command ≡ None) × (kind_of error.now ≢ ErrorKind.OutOfMemory)) }
{
    match error.kind() {
        ErrorKind::OutOfMemory => Err(AllocError),
        _ => Ok(None),
    }
}

/// How many workers words of `propose` ask for; of other words nothing.
pub fn workers_of(command: Option<NodeCommand>) -> Option<u8>
    ensures { result ≡ workers_of command }
{
    match command {
        Some(NodeCommand::Propose(workers)) => Some(workers),
        _ => None,
    }
}

/// The command of a name, with its options, if there is one.
fn command_named(name: &str, options: &ArgMatches<'_>) -> Option<NodeCommand>
    ensures { result ≡ command_named name.now (rows_of (found_of options.now)) }
{
    match name {
        "asm" => Some(NodeCommand::Asm),
        "dis" => Some(NodeCommand::Dis),
        "check" => Some(NodeCommand::Check),
        "replay" => Some(NodeCommand::Replay),
        "debug" => debug_command(options),
        "state" => state_command(options),
        "propose" => propose_command(options),
        _ => None,
    }
}

fn debug_command(options: &ArgMatches<'_>) -> Option<NodeCommand>
    ensures { result ≡ debug_command (rows_of (found_of options.now)) }
{
    Some(NodeCommand::Debug {
        entry: number_in("entry", options)?,
        steps: number_in("steps", options)?,
    })
}

fn state_command(options: &ArgMatches<'_>) -> Option<NodeCommand>
    ensures { result ≡ state_command (rows_of (found_of options.now)) }
{
    Some(NodeCommand::State(number_in("at", options)?))
}

fn propose_command(options: &ArgMatches<'_>) -> Option<NodeCommand>
    ensures { result ≡ propose_command (rows_of (found_of options.now)) }
{
    let workers = number_in("workers", options)?;
    Some(NodeCommand::Propose(worker_count(workers)?))
}

/// The number that the option of this name has, if it is given.
pub(crate) fn number_in(name: &str, options: &ArgMatches<'_>) -> Option<u64>
    ensures { result ≡ number_in name.now (rows_of (found_of options.now)) }
{
    options.get_one::<u64>(name)
}

/// How many workers a number asks for: one to eight.
fn worker_count(number: u64) -> Option<u8>
    ensures { result ≡ worker_count number }
{
    if 0 < number && number < 9 {
        Some(number as u8)
    } else {
        None
    }
}

/// The commands, each with its options, which have to be given.
const COMMANDS: [CommandRow<'static>; 7] = [
    ("asm", &[]),
    ("dis", &[]),
    ("check", &[]),
    ("replay", &[]),
    ("debug", &["entry", "steps"]),
    ("state", &["at"]),
    ("propose", &["workers"]),
];

/// A command's name, and the names of its options, which are numbers.
pub(crate) type CommandRow<'a> = (&'a str, &'a [&'a str]);

fn command_line<'a>(alloc: Global) -> Result<Command<'a>, AllocError>
    ensures { IfOk result (λ command. app_of command ≡ command_line) }
{
    program_line(alloc, "avm", &COMMANDS, true)
}

/// A program with these commands, whose options have to be given or need not.
pub(crate) fn program_line<'a>(
    alloc: Global,
    program: &'a str,
    commands: &[CommandRow<'a>],
    required: bool,
) -> Result<Command<'a>, AllocError>
    ensures { IfOk result (λ line. app_of line ≡ program_line required program.now
        (map (λ row. (row.0.now, map (λ option. option.now) row.1.now)) commands.now)) }
{
    let mut line = bare_line(alloc, program);
    for row in commands {
        let (name, options) = *row;
        let command = numbered(alloc, name, options, required)?;
        line = line.subcommand(command)?;
    }
    Ok(line)
}

/// A program of this name without commands.
fn bare_line<'a>(alloc: Global, program: &'a str) -> Command<'a>
    ensures app { app_of result ≡ bare_line program.now }
    ensures local { (out-Command result).has_globals ≡ false }
{
    Command::new(alloc, program).no_binary_name(true)
}

/// The command of this name, whose options are numbers with these names.
fn numbered<'a>(
    alloc: Global,
    name: &'a str,
    options: &[&'a str],
    required: bool,
) -> Result<Command<'a>, AllocError>
    ensures app { IfOk result (λ command.
        app_of command ≡ numbered required name.now (map (λ option. option.now) options.now)) }
    ensures local { IfOk result (λ command. (out-Command command).has_globals ≡ false) }
{
    let mut command = Command::new(alloc, name);
    for option in options {
        command = command.arg(number_option(alloc, option, required))?;
    }
    Ok(command)
}

/// An option with a number below 2^64.
fn number_option<'a>(alloc: Global, name: &'a str, required: bool) -> Arg<'a>
    ensures rule { rule_of result ≡ number_rule required name.now }
    ensures local { result.global ≡ false }
{
    Arg::new(alloc, name)
        .long(name)
        .action(ArgAction::Set)
        .value_parser(clap::value_parser!(u64))
        .required(required)
}

/// The words of the commands, computed by their definition: there are no abbreviations, and neither a request for help nor
/// a word too many is a command. A timestamp is a number below 2^64, and there are one to eight workers.
#[tactic(auto, unfolding(clap::proofs::OnLiterals::clap_on_literals, crate::specs::CommandLine::command_among))]
pub fn words_of_commands()
    ensures asm { command_in (codes "asm" ∷ []) ≡ Some Asm }
    ensures dis { command_in (codes "dis" ∷ []) ≡ Some Dis }
    ensures check { command_in (codes "check" ∷ []) ≡ Some Check }
    ensures replay { command_in (codes "replay" ∷ []) ≡ Some Replay }
    ensures debug { command_in (codes "debug"
        ∷ codes "--entry" ∷ codes "1" ∷ codes "--steps" ∷ codes "0" ∷ []) ≡ Some (Debug 1 0) }
    ensures debug_steps_first { command_in (codes "debug" ∷ codes "--steps=18446744073709551615"
        ∷ codes "--entry=2" ∷ []) ≡ Some (Debug 2 18446744073709551615) }
    ensures debug_no_steps { command_in (codes "debug" ∷ codes "--entry" ∷ codes "1" ∷ []) ≡ None }
    ensures debug_no_entry { command_in (codes "debug" ∷ codes "--steps" ∷ codes "1" ∷ []) ≡ None }
    ensures state { command_in (codes "state" ∷ codes "--at" ∷ codes "2" ∷ []) ≡ Some (State 2) }
    ensures state_in_one { command_in (codes "state" ∷ codes "--at=18446744073709551615" ∷ [])
        ≡ Some (State 18446744073709551615) }
    ensures no_timestamp { command_in (codes "state" ∷ []) ≡ None }
    ensures high_timestamp { command_in (codes "state"
        ∷ codes "--at" ∷ codes "18446744073709551616" ∷ []) ≡ None }
    ensures other_timestamp { command_in (codes "state" ∷ codes "--at" ∷ codes "x" ∷ []) ≡ None }
    ensures two_timestamps { command_in (codes "state"
        ∷ codes "--at=1" ∷ codes "--at=2" ∷ []) ≡ None }
    ensures option_of_another { command_in (codes "replay" ∷ codes "--at=1" ∷ []) ≡ None }
    ensures propose { command_in (codes "propose" ∷ codes "--workers" ∷ codes "2" ∷ [])
        ≡ Some (Propose 2) }
    ensures propose_in_one { command_in (codes "propose" ∷ codes "--workers=+08" ∷ [])
        ≡ Some (Propose 8) }
    ensures no_count { command_in (codes "propose" ∷ []) ≡ None }
    ensures no_workers { command_in (codes "propose" ∷ codes "--workers=0" ∷ []) ≡ None }
    ensures nine_workers { command_in (codes "propose" ∷ codes "--workers=9" ∷ []) ≡ None }
    ensures two_counts { command_in (codes "propose"
        ∷ codes "--workers=1" ∷ codes "--workers=1" ∷ []) ≡ None }
    ensures no_word { command_in [] ≡ None }
    ensures abbreviation { command_in (codes "as" ∷ []) ≡ None }
    ensures upper_case { command_in (codes "ASM" ∷ []) ≡ None }
    ensures help { command_in (codes "help" ∷ []) ≡ None }
    ensures help_option { command_in (codes "--help" ∷ []) ≡ None }
    ensures version_option { command_in (codes "--version" ∷ []) ≡ None }
    ensures help_of_asm { command_in (codes "asm" ∷ codes "-h" ∷ []) ≡ None }
    ensures a_word_more { command_in (codes "asm" ∷ codes "source.teal" ∷ []) ≡ None }
    ensures program_name { command_in (codes "avm" ∷ codes "asm" ∷ []) ≡ None }
{}
