//! The program `avm`: its words, standard input and standard output go to `avm_node`, which executes the command, with sets of
//! objects for the opcodes.
#![tactic(auto)]

ghost use Rattle.std.specs.Prelude.{IsTrue};
ghost use Rattle.std.specs.List.{AllByRecursion};
ghost use Rattle.avm_node.specs.WorkerSets.{AreSets};
ghost use Rattle.avm_ops.specs.OpSets.{IsFull};

use avm_node::{FAILED, answer, run};
use avm_objects::filled_set;
use avm_ops::{Op, Ops};
use avm_run::FullOps;
use std::alloc::AllocError;
use std::env;
use std::io::{self, ErrorKind};
use std::process::ExitCode;
use std::sync::Wait;
use std::thread::Threads;

/// How many sets `propose` takes: one for each of 8 workers, and one for the program's own thread.
const SETS: usize = 9;

fn main(rt: HostRuntime) -> ExitCode {
    let alloc = rt.alloc();
    let Ok(words) = words_of(&rt) else {
        return ExitCode::from(FAILED);
    };
    let Ok(texts) = texts_of(&rt, &words) else {
        return ExitCode::from(FAILED);
    };
    let mut sets = Vec::new(alloc);
    // One set serves every command but `propose`, for which the turns go on.
    for number in 0..SETS {
        let filled = filled_set!(alloc, ExitCode::from(FAILED));
        let set = if number == 0 {
            match answered(&rt, texts.as_slice(), filled) {
                Ok(status) => return ExitCode::from(status),
                Err(own) => own,
            }
        } else {
            filled
        };
        if sets.push(set).is_err() {
            return ExitCode::from(FAILED);
        }
    }
    ExitCode::from(proposed(&rt, &rt, texts.as_slice(), sets))
}

/// The words that the program was called with. Words that are no text are no command, as no words are.
fn words_of(rt: &HostRuntime) -> io::Result<Vec<String>> {
    let alloc = rt.alloc();
    match env::args(rt) {
        Ok(args) => Ok(args.skip(1).collect(alloc)?),
        Err(error) if error.kind() == ErrorKind::InvalidData => Ok(Vec::new(alloc)),
        Err(error) => Err(error),
    }
}

fn texts_of<'a>(rt: &HostRuntime, words: &'a Vec<String>) -> Result<Vec<&'a str>, AllocError> {
    let mut texts = Vec::new(rt.alloc());
    for word in words {
        texts.push(word.as_str())?;
    }
    Ok(texts)
}

/// The exit status of a command that starts no thread, or the set back where the words are `propose`.
fn answered<O: Op>(rt: &HostRuntime, words: &[&str], own: Ops<O>) -> Result<u8, Ops<O>> {
    let Ok(own) = FullOps::of(own) else {
        return Ok(FAILED);
    };
    match answer::<_, _, _, true>(rt.alloc(), words, &mut rt.stdin(), &mut rt.stdout(), &own) {
        Some(status) => Ok(status),
        None => Err(own.into_set()),
    }
}

/// The exit status of `propose`. The runtime comes twice, since it is known to start threads in `main` alone.
fn proposed<T: Threads + Wait + Sync, O: Op>(
    rt: &HostRuntime,
    threads: &T,
    words: &[&str],
    sets: Vec<Ops<O>>,
) -> u8 {
    if !are_sets(&sets) {
        return FAILED;
    }
    run::<_, _, _, _, true>(
        threads,
        rt.alloc(),
        words,
        &mut rt.stdin(),
        &mut rt.stdout(),
        sets,
    )
}

/// Whether there are as many sets as are wanted, each with an object of every opcode.
fn are_sets<O: Op>(sets: &[Ops<O>]) -> bool
    ensures { IsTrue result → AreSets O.opcode sets.now }
{
    sets.len() == SETS && are_full(sets)
}

fn are_full<O: Op>(sets: &[Ops<O>]) -> bool
    ensures { IsTrue result → AllByRecursion (IsFull O.opcode) sets.now }
{
    match sets.split_first() {
        None => true,
        Some((set, sets)) => set.missing().is_none() && are_full(sets),
    }
}
