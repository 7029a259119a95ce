//! The words of the command line of `avm_json`.

ghost use Rattle.std.specs.Prelude.{◌≡◌, ◌∷◌, [], Some, None, IfOk, codes, map};
ghost use Rattle.clap.specs.Words.{app_of, found_of, rows_of, subcommand_rows_of};
ghost use Rattle.avm_input.specs.CommandLine.{command_found};
ghost use Rattle.avm_input.specs.JsonCommandLine.{json_command_in, json_command_line, json_command_named};
ghost use Rattle.avm_input.specs.declared.json_command_line.JsonCommand.TheVariants.{Lines, Page, Run, Show, Trace};

use crate::command_line::{CommandRow, no_command, number_in, program_line};
use clap::{ArgMatches, Command};
use std::alloc::{AllocError, Global};

/// A command of the program `avm_json`.
#[derive(Clone, Copy, Debug, PartialEq, Eq)]
pub enum JsonCommand {
    /// Makes the lines of a document that `avm propose` reads.
    Lines,
    /// Shows a ledger, or a ledger and a block, as a document.
    Show,
    /// Makes the calls of a document, and shows what each of them did.
    Run,
    /// Shows what each call of a block did, or the call of an entry. Entries are numbered from 1.
    Trace(Option<u64>),
    /// Shows a block on a page for a browser, with the trace of each call, or of an entry's call alone.
    Page(Option<u64>),
}

/// The command that the words after the program's name are, or none where they are to be answered with the usage line.
pub fn json_command_in<'a>(
    alloc: Global,
    words: &'a [&'a str],
) -> Result<Option<JsonCommand>, AllocError>
    ensures { IfOk result
        (λ command. command ≡ json_command_in (map (λ word. word.now) words.now)) }
{
    match json_command_line(alloc)?.try_get_matches_from(words) {
        Ok(matches) => Ok(json_command_of(&matches)),
        Err(error) => no_command(&error),
    }
}

/// The command that was found in words, if there is one.
fn json_command_of(matches: &ArgMatches<'_>) -> Option<JsonCommand>
    ensures { result ≡ command_found json_command_named (subcommand_rows_of matches.now) }
{
    let (name, options) = matches.subcommand()?;
    json_command_named(name, options)
}

/// The command of a name, with its options, if there is one.
fn json_command_named(name: &str, options: &ArgMatches<'_>) -> Option<JsonCommand>
    ensures { result ≡ json_command_named name.now (rows_of (found_of options.now)) }
{
    match name {
        "lines" => Some(JsonCommand::Lines),
        "show" => Some(JsonCommand::Show),
        "run" => Some(JsonCommand::Run),
        "trace" => Some(JsonCommand::Trace(number_in("entry", options))),
        "page" => Some(JsonCommand::Page(number_in("entry", options))),
        _ => None,
    }
}

/// The commands, each with its options, which need not be given.
const COMMANDS: [CommandRow<'static>; 5] = [
    ("lines", &[]),
    ("show", &[]),
    ("run", &[]),
    ("trace", &["entry"]),
    ("page", &["entry"]),
];

fn json_command_line<'a>(alloc: Global) -> Result<Command<'a>, AllocError>
    ensures { IfOk result (λ command. app_of command ≡ json_command_line) }
{
    program_line(alloc, "avm_json", &COMMANDS, false)
}

/// The words of the commands, computed by their definition: an entry's number is below 2^64, and is given once at most.
#[tactic(auto, unfolding(clap::proofs::OnLiterals::clap_on_literals, crate::specs::CommandLine::command_among))]
pub fn words_of_json_commands()
    ensures lines { json_command_in (codes "lines" ∷ []) ≡ Some Lines }
    ensures show { json_command_in (codes "show" ∷ []) ≡ Some Show }
    ensures run { json_command_in (codes "run" ∷ []) ≡ Some Run }
    ensures trace { json_command_in (codes "trace" ∷ []) ≡ Some (Trace None) }
    ensures trace_of_entry { json_command_in (codes "trace" ∷ codes "--entry" ∷ codes "1" ∷ [])
        ≡ Some (Trace (Some 1)) }
    ensures trace_in_one { json_command_in (codes "trace" ∷ codes "--entry=+07" ∷ [])
        ≡ Some (Trace (Some 7)) }
    ensures page { json_command_in (codes "page" ∷ []) ≡ Some (Page None) }
    ensures page_of_entry { json_command_in
        (codes "page" ∷ codes "--entry=18446744073709551615" ∷ [])
        ≡ Some (Page (Some 18446744073709551615)) }
    ensures no_number { json_command_in (codes "trace" ∷ codes "--entry" ∷ []) ≡ None }
    ensures high_number { json_command_in (codes "trace"
        ∷ codes "--entry" ∷ codes "18446744073709551616" ∷ []) ≡ None }
    ensures other_number { json_command_in (codes "page" ∷ codes "--entry=x" ∷ []) ≡ None }
    ensures two_numbers { json_command_in (codes "trace"
        ∷ codes "--entry=1" ∷ codes "--entry=2" ∷ []) ≡ None }
    ensures option_of_another { json_command_in (codes "run" ∷ codes "--entry=1" ∷ []) ≡ None }
    ensures no_word { json_command_in [] ≡ None }
    ensures help { json_command_in (codes "--help" ∷ []) ≡ None }
    ensures a_word_more { json_command_in (codes "show" ∷ codes "block.txt" ∷ []) ≡ None }
{}
