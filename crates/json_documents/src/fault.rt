//! What a document is refused for, and where.

ghost use Rattle.std.specs.Prelude.{◌≡◌, ◌++◌, IfOk, OnOk, string_bytes};
ghost use Rattle.teal_value.specs.declared.failure.Failure.TheVariants as failure;
ghost use Rattle.json_documents.specs.Faults.{IsFurther, here};
ghost use Rattle.json_documents.specs.ShownSteps.{step_shown};
ghost use Rattle.json_documents.specs.Steps.{at_index, at_name, path_text, step_text};

use crate::document_fault::DocumentFault;
use crate::step::Step;
use std::alloc::{AllocError, Global};
use std::marker::Model;
use teal_value::Failure;

/// What is wrong with a value of a document, and the steps to it, the last one first.
#[derive(Debug, Drop)]
pub struct Fault {
    path: Vec<Step>,
    what: DocumentFault,
}

impl Model for Fault {
    ghost use Rattle.json_documents.specs.Faults.{Fault as ShownFault};

    ghost Value = { ShownFault };

    ghost use Rattle.json_documents.specs.ShownSteps.{steps_shown};

    ghost view = { λ f. record { path = steps_shown f.path.items; what = f.what } };
}

/// A [`Fault`], or a refused allocation.
pub type FieldError = Failure<Fault>;

impl Fault {
    /// The fault of the value itself. It takes no memory.
    pub fn of(alloc: Global, what: DocumentFault) -> Fault
        ensures { result ≡ here what }
    {
        Fault {
            path: Vec::new(alloc),
            what,
        }
    }

    /// The failure with the fault of the value itself.
    pub fn here(alloc: Global, what: DocumentFault) -> FieldError
        ensures { result ≡ failure.Fault (here what) }
    {
        Failure::Fault(Fault::of(alloc, what))
    }

    /// What is wrong with the value.
    pub fn what(&self) -> &DocumentFault
        ensures { result.now ≡ self.now.what }
    {
        &self.what
    }

    /// The way to the value, as a JSON pointer in the form of a fragment (RFC 6901, section 6).
    pub fn path_text(&self, alloc: Global) -> Result<String, AllocError>
        ensures { IfOk result (λ text. string_bytes text ≡ path_text self.now.path) }
    {
        let mut text = String::from_str(alloc, "#")?;
        let mut left = self.path.len();
        while left > 0 {
            left -= 1;
            text.push('/')?;
            push_step(&mut text, &self.path[left])?;
        }
        Ok(text)
    }
}

/// The failure as whoever stands before the member of this name sees it.
pub fn in_member(failure: FieldError, name: &'static str) -> FieldError
    ensures { IsFurther (at_name name.now) failure result }
{
    further(failure, Step::Name(name))
}

/// The failure as whoever stands before the element at this index sees it.
pub fn in_item(failure: FieldError, index: usize) -> FieldError
    ensures { IsFurther (at_index index) failure result }
{
    further(failure, Step::Index(index))
}

fn further(failure: FieldError, step: Step) -> FieldError
    ensures { IsFurther (step_shown step) failure result }
{
    match failure {
        Failure::Memory => Failure::Memory,
        Failure::Fault(Fault { path, what }) => {
            let mut path = path;
            match path.push(step) {
                Ok(()) => Failure::Fault(Fault { path, what }),
                Err(_) => Failure::Memory,
            }
        }
    }
}

/// Appends a step's part of a path.
fn push_step(text: &mut String, step: &Step) -> Result<(), AllocError>
    ensures { OnOk result
        (string_bytes text.new ≡ string_bytes text.old ++ step_text (step_shown step.now)) }
{
    match step {
        Step::Name(name) => text.push_str(name),
        Step::Index(index) => write!(text, "{index}"),
    }
}
