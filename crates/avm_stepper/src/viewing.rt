//! The view of a run, over a ledger.

ghost use Rattle.std.specs.Prelude.{◌≡◌, IfOk, length};
ghost use Rattle.std.specs.Option.{option_copied};
ghost use Rattle.avm_run.specs.Showing.{sight_of};
ghost use Rattle.avm_stepper.specs.Shown.{machine_by, machine_seen, next_by, next_seen, view_by, view_seen};

use crate::changes::{global_changes, local_changes};
use crate::scratch::scratch_places;
use crate::view::{MachineView, Next, View};
use avm_items::ItemMap;
use avm_ledger::Ledger;
use avm_run::Shown;
use std::alloc::{AllocError, Global};
use teal_code::Instr;
use teal_value::Fault;

fn next_of<'a>(fault: Option<Fault>, instruction: Option<&'a Instr>) -> Next<'a>
    ensures { next_seen result ≡ next_by fault (option_copied instruction.entry) }
{
    match (fault, instruction) {
        (Some(fault), _) => Next::Fault(fault),
        (None, Some(instruction)) => Next::Instruction(instruction),
        (None, None) => Next::End,
    }
}

/// What the machine holds where a program stands.
pub(crate) fn machine_at<'a>(
    alloc: Global,
    fault: Option<Fault>,
    shown: Shown<'a>,
) -> Result<MachineView<'a>, AllocError>
    requires { length (sight_of shown).machine.scratch ≡ 256 }
    ensures { IfOk result
        (λ machine. machine_seen machine ≡ machine_by fault (sight_of shown.entry)) }
{
    Ok(MachineView {
        place: shown.place,
        next: next_of(fault, shown.instruction),
        stack: shown.machine.values(),
        scratch: scratch_places(alloc, shown.machine)?,
    })
}

/// What stands where a program stands, and what has changed since the items prepared for it were put into the ledger.
pub(crate) fn view_at<'a>(
    alloc: Global,
    ledger: &Ledger,
    prepared: &ItemMap,
    fault: Option<Fault>,
    shown: Shown<'a>,
) -> Result<View<'a>, AllocError>
    requires { length (sight_of shown).machine.scratch ≡ 256 }
    ensures { IfOk result
        (λ view. view_seen view ≡ view_by ledger.now prepared.now fault (sight_of shown.entry)) }
{
    let id = shown.application;
    let global_changes = global_changes(alloc, ledger, prepared, shown.writes, id)?;
    let local_changes = local_changes(alloc, ledger, prepared, shown.writes, id)?;
    let MachineView {
        place,
        next,
        stack,
        scratch,
    } = machine_at(alloc, fault, shown)?;
    Ok(View {
        place,
        next,
        stack,
        scratch,
        uint_constants: shown.machine.uint_constants(),
        byte_constants: shown.machine.byte_constants(),
        global_changes,
        local_changes,
    })
}
