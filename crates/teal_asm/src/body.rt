//! The statements of a text, one behind another, with what they gather.

ghost use Rattle.std.specs.Prelude.{◌≡◌, ◌<◌, ◌≤◌, ◌++◌, ◌&&◌, ◌||◌, [], None, false, true, is_some, length, nat_lt, nat_eq, IsTrue, OnOk};
ghost use Rattle.std.specs.List.{list_any};
ghost use Rattle.std.specs.Map.{lookup};
ghost use Rattle.std.specs.Option.{ForSome, option_copied, option_map_or};
ghost use Rattle.std.specs.Str.{bytes_eq};
ghost use Rattle.teal_source.specs.Operands.{Word};
ghost use Rattle.teal_source.specs.Statements.{appended, behind, distinct, gathered_uint, gathered_string, has_label, is_uint_block, is_byte_block};
ghost use Rattle.teal_asm.specs.Meaning.{commands_in, label_entry};
ghost use Rattle.teal_asm.specs.Thinned.{IsNeedless, LeavesThinned, branch_label, jumps_to, leads_back};

use crate::emit::MOST;
use crate::gathered::{Labels, Strings};
use crate::resolve::Constants;
use indexmap::IndexSet;
use std::alloc::{AllocError, Global};
use teal_code::Immediates;
use teal_source::{AsmFaultKind, Command, LineError, Statement};
use teal_value::{ByteString, Failure};

/// The most constants that are gathered of a kind.
const MAX_CONSTANTS: usize = 256;

/// The statements so far.
pub(crate) struct Body {
    /// All of them, or so many that the program is too long, among them those that a later fault may need.
    pub statements: Vec<Statement>,
    /// The gathered constants, each once, in the order of first use.
    pub uints: IndexSet<u64>,
    pub strings: Strings,
    pub labels: Labels,
    /// The labels that branches lead to.
    pub targets: Labels,
    /// Whether a branch leads back, to a label before it: then no branch behind it has the first fault.
    pub leads_back: bool,
    /// How many of `statements` have a command.
    pub commands: usize,
    pub has_uint_block: bool,
    pub has_byte_block: bool,
}

/// Written out, so that whoever owns one drops it by one call and not part by part.
impl Drop for Body {
    #[inline]
    fn drop(self) {
        let Body {
            statements: _,
            uints: _,
            strings: _,
            labels: _,
            targets: _,
            leads_back: _,
            commands: _,
            has_uint_block: _,
            has_byte_block: _,
        } = self;
    }
}

impl Body {
    ghost use Rattle.teal_asm.specs.Bodies.{IsBody, Notes};

    pub fn new(alloc: Global) -> Body
        ensures body { IsBody result }
        ensures empty { result.statements.items ≡ [] }
    {
        Body {
            statements: Vec::new(alloc),
            uints: IndexSet::new(alloc),
            strings: Strings::new(alloc),
            labels: Labels::new(alloc),
            targets: Labels::new(alloc),
            leads_back: false,
            commands: 0,
            has_uint_block: false,
            has_byte_block: false,
        }
    }

    /// What its statements are resolved by, behind so many blocks, and the statements.
    pub fn into_parts(self, blocks: usize) -> (Constants, Vec<Statement>)
        ensures { result ≡ (
          record {
            uints = self.uints;
            strings = self.strings;
            labels = self.labels;
            blocks = blocks;
          },
          self.statements,
        ) }
    {
        let Body {
            statements,
            uints,
            strings,
            labels,
            targets: _,
            leads_back: _,
            commands: _,
            has_uint_block: _,
            has_byte_block: _,
        } = self;
        let constants = Constants {
            uints,
            strings,
            labels,
            blocks,
        };
        (constants, statements)
    }

    /// Adds a statement whose label is new, or drops it where no later fault needs it: as soon as the program is too long,
    /// only labels, what gathers a constant, and the first branch to each label count. After a refusal the body is of no
    /// more use.
    pub fn add(&mut self, alloc: Global, statement: Statement) -> Result<(), LineError>
        requires body { IsBody self.old }
        requires fresh { ForSome statement.label
            (λ name. list_any (has_label name) self.old.statements.items ≡ false) }
        ensures leaves { LeavesThinned result self.new.statements.items
            (appended self.old.statements.items (behind self.old.statements.items statement)) }
        ensures kept { OnOk result (IsBody self.new) }
    {
        if self.note(alloc, &statement)? {
            self.statements.push(statement)?;
        }
        Ok(())
    }

    /// Notes what a statement brings, and tells whether it is to stand behind the others.
    fn note(&mut self, alloc: Global, statement: &Statement) -> Result<bool, LineError>
        requires body { IsBody self.old }
        requires fresh { ForSome statement.now.label
            (λ name. list_any (has_label name) self.old.statements.items ≡ false) }
        ensures notes { Notes result self.new self.old.statements.items statement.now }
        ensures stays { self.new.statements ≡ self.old.statements }
    {
        let uints = self.uints.len();
        let strings = self.strings.len();
        let uint_block = self.has_uint_block;
        let byte_block = self.has_byte_block;
        let needless = self.is_needless(statement);
        let leads_back = self.leads_back_with(&statement.command);
        gather(
            alloc,
            &statement.command,
            &mut self.uints,
            &mut self.strings,
        )?;
        self.has_uint_block = with_uint_block(self.has_uint_block, &statement.command);
        self.has_byte_block = with_byte_block(self.has_byte_block, &statement.command);
        if self.mixes_blocks() {
            return Err(Failure::Fault(AsmFaultKind::MixedBlock));
        }
        if self.gathers_too_many() {
            return Err(Failure::Fault(AsmFaultKind::TooManyConstants));
        }
        if needless
            && self.uints.len() == uints
            && self.strings.len() == strings
            && self.has_uint_block == uint_block
            && self.has_byte_block == byte_block
        {
            return Ok(false);
        }
        note_label(alloc, &statement.label, self.commands, &mut self.labels)?;
        note_target(alloc, &statement.command, self.commands, &mut self.targets)?;
        self.leads_back = leads_back;
        self.commands += commands_in(&statement.command);
        Ok(true)
    }

    /// Whether a statement has the label.
    pub fn has_label(&self, name: &[u8]) -> bool
        requires { IsBody self.now }
        ensures { result ≡ list_any (has_label name.now) self.now.statements.items }
    {
        self.labels.number_of(name).is_some()
    }

    /// Whether the program is too long and, whatever stands behind the statement, has the same first fault without it.
    fn is_needless(&self, statement: &Statement) -> bool
        requires { IsBody self.now }
        ensures { IsTrue result
            → (1023 < self.now.commands) × IsNeedless self.now.statements.items statement.now }
    {
        if self.commands <= MOST || statement.label.is_some() {
            return false;
        }
        match branch_label(&statement.command) {
            Some(label) => self.leads_back || self.is_waited_for(label),
            None => true,
        }
    }

    /// Whether a branch leads to a label that does not stand yet.
    fn is_waited_for(&self, name: &[u8]) -> bool
        requires { IsBody self.now }
        ensures { IsTrue result → (list_any (jumps_to name.now) self.now.statements.items ≡ true)
            × (list_any (has_label name.now) self.now.statements.items ≡ false) }
    {
        self.targets.number_of(name).is_some() && !self.has_label(name)
    }

    /// Whether a branch leads back, where a command comes behind the statements.
    fn leads_back_with(&self, command: &Option<Command>) -> bool
        requires { IsBody self.now }
        ensures { result ≡ (leads_back self.now.statements.items (branch_label command.now)
            || self.now.leads_back) }
    {
        match branch_label(command) {
            Some(label) => self.has_label(label) || self.leads_back,
            None => self.leads_back,
        }
    }

    fn mixes_blocks(&self) -> bool
        ensures { result ≡ ((self.now.has_uint_block && nat_lt 0 (length self.now.uints.keys))
            || (self.now.has_byte_block && nat_lt 0 (length self.now.strings))) }
    {
        (self.has_uint_block && self.uints.len() > 0)
            || (self.has_byte_block && self.strings.len() > 0)
    }

    fn gathers_too_many(&self) -> bool
        ensures { result
            ≡ (nat_lt 256 (length self.now.uints.keys) || nat_lt 256 (length self.now.strings)) }
    {
        self.uints.len() > MAX_CONSTANTS || self.strings.len() > MAX_CONSTANTS
    }
}

/// The label that a command branches to.
fn branch_label(command: &Option<Command>) -> Option<&[u8]>
    ensures { option_copied result ≡ branch_label command.now }
{
    match command {
        Some(Command::Jump(_, name)) => Some(name.as_slice()),
        _ => None,
    }
}

fn gather(
    alloc: Global,
    command: &Option<Command>,
    uints: &mut IndexSet<u64>,
    strings: &mut Strings,
) -> Result<(), AllocError>
    ensures uints { OnOk result
        (uints.new.keys ≡ distinct nat_eq uints.old.keys (gathered_uint command.now)) }
    ensures strings { OnOk result
        (strings.new ≡ distinct bytes_eq strings.old (gathered_string command.now)) }
{
    match command {
        Some(Command::Int(number)) => {
            uints.insert(*number)?;
            Ok(())
        }
        Some(Command::Byte(bytes)) => strings.insert(alloc, bytes.as_slice()),
        _ => Ok(()),
    }
}

fn note_label(
    alloc: Global,
    label: &Option<ByteString>,
    number: usize,
    labels: &mut Labels,
) -> Result<(), AllocError>
    requires { ForSome label.now (λ name. lookup (bytes_eq name) labels.old ≡ None) }
    ensures { OnOk result (labels.new ≡ labels.old ++ label_entry label.now number) }
{
    match label {
        Some(name) => labels.insert(alloc, name.as_slice(), number),
        None => Ok(()),
    }
}

/// Notes the label that a branch leads to.
fn note_target(
    alloc: Global,
    command: &Option<Command>,
    number: usize,
    targets: &mut Labels,
) -> Result<(), AllocError>
    ensures { OnOk result ((name : Word) → is_some (lookup (bytes_eq name) targets.new) ≡ true
        → (is_some (lookup (bytes_eq name) targets.old)
        || option_map_or (λ label. bytes_eq name label) (branch_label command.now) false) ≡ true) }
{
    match branch_label(command) {
        Some(label) if targets.number_of(label).is_none() => targets.insert(alloc, label, number),
        _ => Ok(()),
    }
}

fn commands_in(command: &Option<Command>) -> usize
    ensures count { result ≡ commands_in command.now }
    ensures one { result ≤ 1 }
{
    match command {
        Some(_) => 1,
        None => 0,
    }
}

fn with_uint_block(before: bool, command: &Option<Command>) -> bool
    ensures { result ≡ (before || is_uint_block command.now) }
{
    before || matches!(command, Some(Command::Plain(_, Immediates::UintBlock(_))))
}

fn with_byte_block(before: bool, command: &Option<Command>) -> bool
    ensures { result ≡ (before || is_byte_block command.now) }
{
    before || matches!(command, Some(Command::Plain(_, Immediates::ByteBlock(_))))
}
