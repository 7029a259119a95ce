//! The program `avm_json`: ledgers and blocks as JSON documents. Its words, standard input and standard output go to
//! `json_commands::answer`.
#![tactic(auto)]

use avm_input::FAILED;
use avm_objects::filled_set;
use avm_ops::{Op, Ops};
use avm_run::FullOps;
use json_commands::answer;
use std::alloc::AllocError;
use std::env;
use std::io::{self, ErrorKind};
use std::process::ExitCode;

fn main(rt: HostRuntime) -> ExitCode {
    let Ok(words) = words_of(&rt) else {
        return ExitCode::from(FAILED);
    };
    let Ok(texts) = texts_of(&rt, &words) else {
        return ExitCode::from(FAILED);
    };
    let ops = filled_set!(rt.alloc(), ExitCode::from(FAILED));
    ExitCode::from(answered(&rt, texts.as_slice(), ops))
}

/// The exit status of the command that the words are.
fn answered<O: Op>(rt: &HostRuntime, words: &[&str], ops: Ops<O>) -> u8 {
    match FullOps::of(ops) {
        Ok(ops) => answer(rt.alloc(), words, &mut rt.stdin(), &mut rt.stdout(), &ops),
        Err(_lacking) => FAILED,
    }
}

/// The words that the program was called with. Words that are no text are no command, as no words are.
fn words_of(rt: &HostRuntime) -> io::Result<Vec<String>> {
    let alloc = rt.alloc();
    match env::args(rt) {
        Ok(args) => Ok(args.skip(1).collect(alloc)?),
        Err(error) if error.kind() == ErrorKind::InvalidData => Ok(Vec::new(alloc)),
        Err(error) => Err(error),
    }
}

fn texts_of<'a>(rt: &HostRuntime, words: &'a Vec<String>) -> Result<Vec<&'a str>, AllocError> {
    let mut texts = Vec::new(rt.alloc());
    for word in words {
        texts.push(word.as_str())?;
    }
    Ok(texts)
}
