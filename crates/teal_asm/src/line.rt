//! The statement of a line.

ghost use Rattle.std.specs.Prelude.{None, OnOk};
ghost use Rattle.teal_source.specs.Statements.{appended, labelled, statement, with_label};
ghost use Rattle.teal_source.specs.Shown.{words};
ghost use Rattle.teal_asm.specs.Bodies.{IsBody};
ghost use Rattle.teal_asm.specs.LineWords.{line_words};
ghost use Rattle.teal_asm.specs.Thinned.{LeavesThinned};

use crate::body::Body;
use std::alloc::Global;
use teal_source::{
    AsmFaultKind, LineError, Statement, command_of, is_pragma, label_name, optional_command,
};
use teal_table::Version;
use teal_value::{ByteString, Failure};

/// A line that has words.
#[derive(Clone, Copy, Debug)]
pub(crate) struct LineWords<'a> {
    /// Its number, from 1.
    pub line: usize,
    pub first: &'a [u8],
    pub more: &'a [&'a [u8]],
}

/// Adds the statement of a line. After a refusal the body is of no more use.
#[tactic(auto, unfolding(teal_source::specs::Statements::statement))]
pub(crate) fn add_line(
    alloc: Global,
    version: Version,
    line: &LineWords<'_>,
    body: &mut Body,
) -> Result<(), LineError>
    requires { IsBody body.old }
    ensures leaves { LeavesThinned result body.new.statements.items
        (appended body.old.statements.items
        (statement version body.old.statements.items (line_words line.now))) }
    ensures kept { OnOk result (IsBody body.new) }
{
    if is_pragma(line.first) {
        return Err(Failure::Fault(AsmFaultKind::Version));
    }
    match label_name(line.first) {
        Some(name) => add_labelled(alloc, version, line, name, body),
        None => add_plain(alloc, version, line, body),
    }
}

// A line without a label.
fn add_plain(
    alloc: Global,
    version: Version,
    line: &LineWords<'_>,
    body: &mut Body,
) -> Result<(), LineError>
    requires { IsBody body.old }
    ensures leaves { LeavesThinned result body.new.statements.items
        (appended body.old.statements.items (labelled version body.old.statements.items
        line.now.line None line.now.first.now (words line.now.more.now))) }
    ensures kept { OnOk result (IsBody body.new) }
{
    let command = command_of(alloc, version, line.first, line.more)?;
    let statement = Statement {
        line: line.line,
        label: None,
        command: Some(command),
    };
    body.add(alloc, statement)
}

// A line that begins with a label.
fn add_labelled(
    alloc: Global,
    version: Version,
    line: &LineWords<'_>,
    name: &[u8],
    body: &mut Body,
) -> Result<(), LineError>
    requires { IsBody body.old }
    ensures leaves { LeavesThinned result body.new.statements.items
        (appended body.old.statements.items (with_label version
        body.old.statements.items line.now.line name.now (words line.now.more.now))) }
    ensures kept { OnOk result (IsBody body.new) }
{
    if body.has_label(name) {
        return Err(Failure::Fault(AsmFaultKind::LabelTwice));
    }
    let command = optional_command(alloc, version, line.more)?;
    let statement = Statement {
        line: line.line,
        label: Some(ByteString::from_slice(alloc, name)?),
        command,
    };
    body.add(alloc, statement)
}
