//! Groups of transactions.

ghost use Rattle.std.specs.Prelude.{◌≡◌, [], IfOk, Some};
ghost use Rattle.teal_value.specs.Answer.{Gives};
ghost use Rattle.json_documents.specs.Groups.{has_group, new_group, whole_group, with_group};

use crate::document_fault::DocumentFault;
use crate::fault::{Fault, FieldError};
use crate::members::Form;
use crate::plain::Bytes;
use json::Value;
use std::alloc::{AllocError, Global};
use std::collections::BTreeSet;
use std::marker::Model;

/// The groups of transactions, which contracts see by rising bytes.
#[derive(Drop)]
pub(crate) struct Groups {
    set: BTreeSet<[u8; 32]>,
}

impl Model for Groups {
    ghost use Rattle.std.specs.Prelude.{List, ℕ};

    ghost Value = { List (List ℕ) };

    ghost view = { λ g. g.set.keys };
}

impl Groups {
    /// No groups. They take no memory.
    pub fn new(alloc: Global) -> Groups
        ensures { result ≡ [] }
    {
        Groups {
            set: BTreeSet::new(alloc),
        }
    }

    /// Whether a group is one of these.
    fn has(&self, group: &[u8; 32]) -> bool
        ensures { result ≡ has_group self.now group.now }
    {
        self.set.contains(group)
    }

    /// The groups with that of a transaction, if it has one.
    pub fn with(self, group: Option<[u8; 32]>) -> Result<Groups, AllocError>
        ensures { IfOk result (λ groups. groups ≡ with_group self group) }
    {
        let mut set = self.set;
        if let Some(group) = group {
            set.insert(group)?;
        }
        Ok(Groups { set })
    }
}

/// A group that is none of these.
#[derive(Clone, Copy)]
pub(crate) struct GroupForm<'g> {
    pub groups: &'g Groups,
}

impl Form for GroupForm<'_> {
    type Read = Option<[u8; 32]>;

    ghost use Rattle.json_documents.specs.Groups.{group};

    ghost meaning = { λ f. group f.groups.now };

    fn read(&self, alloc: Global, value: &Value<'_>) -> Result<Option<[u8; 32]>, FieldError> {
        let bytes = Bytes.read(alloc, value)?;
        let group = whole_group(alloc, bytes.as_slice())?;
        new_group(alloc, self.groups, group)
    }
}

fn whole_group(alloc: Global, bytes: &[u8]) -> Result<[u8; 32], FieldError>
    ensures { Gives (λ g. g) result (whole_group bytes.now) }
{
    if bytes.len() == 32 {
        let mut group = [0; 32];
        group.copy_from_slice(bytes);
        Ok(group)
    } else {
        Err(Fault::here(alloc, DocumentFault::GroupLength))
    }
}

fn new_group(
    alloc: Global,
    groups: &Groups,
    group: [u8; 32],
) -> Result<Option<[u8; 32]>, FieldError>
    ensures { Gives (λ g. g) result (new_group groups.now group) }
{
    if groups.has(&group) {
        Err(Fault::here(alloc, DocumentFault::Group))
    } else {
        Ok(Some(group))
    }
}
