//! Calls that keep the rules of calls.

ghost use Rattle.std.specs.Prelude.{◌≡◌, ◌+◌, false, true, if◌then◌else◌, nat_lt, nat_le, length, IfErr, IfOk, IsTrue, MatchOption, None, Ok, Some};
ghost use Rattle.teal_check.specs.WellFormed.{checked};
ghost use Rattle.teal_value.specs.declared.failure.Failure.TheVariants as failure;
ghost use Rattle.avm_call.specs.Calls.{created, updated};
ghost use Rattle.avm_call.specs.CallRules.{brings_programs, call_fault, entries_in, field_fault, fits_schemas, is_three, needed_profile, program_and_schema_fault, program_fault, programs_fault, total_length, updates};
ghost use Rattle.avm_call.specs.CheckedCalls.{program_pair};
ghost use Rattle.avm_call.specs.FaultAnswers.{IsFaultOf};
ghost use Rattle.avm_items.specs.CallFields.{clears, creates};

use crate::call_fault::{CallError, CallFault};
use avm_items::{CallData, Completion};
use avm_ledger::{Application, Profile, SharedApplication, StoredProgram};
use avm_states::{MAX_GLOBAL_ENTRIES, MAX_LOCAL_ENTRIES, Schema};
use std::alloc::{AllocError, Global};
use std::marker::Model;
use std::sync::Arc;
use teal_check::check;
use teal_table::Version;
use teal_value::{ByteString, Failure};

/// The most accounts of a call.
const MAX_ACCOUNTS: usize = 4;

/// The most arguments of a call.
const MAX_ARGUMENTS: usize = 16;

/// The most bytes of all arguments of a call.
const MAX_ARGUMENT_BYTES: usize = 2048;

/// The most foreign applications of a call.
const MAX_FOREIGN_APPLICATIONS: usize = 2;

/// The most bytes of a note.
const MAX_NOTE_BYTES: usize = 1024;

/// The programs that a creation or an update brings.
#[derive(Drop)]
pub(crate) struct Programs {
    pub approval: StoredProgram,
    pub clear: StoredProgram,
}

/// A call that keeps the rules of calls, which contracts see as its fields. All clones share them, and the programs that
/// it brings are decoded once.
pub struct Call {
    fields: Arc<CallData>,
    programs: Option<Programs>,
}

/// Written out, so that whoever owns one drops it by one call and not part by part.
impl Drop for Call {
    #[inline]
    fn drop(self) {
        let Call {
            fields: _,
            programs: _,
        } = self;
    }
}

impl Model for Call {
    ghost use Rattle.std.specs.Arc.{arc_value};
    ghost use Rattle.avm_items.specs.declared.call_data.CallData.{CallData};
    ghost use Rattle.avm_call.specs.CheckedCalls.{IsCheckedCall};

    ghost Value = { CallData };

    ghost view = { λ c. arc_value c.fields };

    ghost invariant = { λ c. IsCheckedCall (arc_value c.fields) c.programs };
}

impl Call {
    ghost use Rattle.std.specs.Arc.{arc_value};

    /// The fields as a call, or the first rule that they break; refused fields are handed back.
    pub fn check(alloc: Global, fields: CallData) -> Result<Call, (CallError, CallData)>
        ensures ok { IfOk result (λ call. (call ≡ fields) × (call_fault fields ≡ None)) }
        ensures refused { IfErr result (λ e. IsFaultOf (call_fault fields) e.0) }
        ensures back { IfErr result (λ e. e.1 ≡ fields) }
    {
        match tested_programs(alloc, &fields) {
            Ok(programs) => match Arc::new(alloc, fields) {
                Ok(fields) => Ok(Call { fields, programs }),
                Err(refused) => Err((Failure::Memory, refused.value)),
            },
            Err(error) => Err((error, fields)),
        }
    }

    /// The fields as a call that shares them, or the first rule that they break.
    #[inline(always)]
    pub fn of_shared(alloc: Global, fields: Arc<CallData>) -> Result<Call, CallError>
        ensures ok { IfOk result (λ call. (call ≡ arc_value fields)
            × (call_fault (arc_value fields) ≡ None)) }
        ensures refused { IfErr result (λ e. IsFaultOf (call_fault (arc_value fields)) e) }
    {
        match tested_programs(alloc, &fields) {
            Ok(programs) => Ok(Call { fields, programs }),
            Err(error) => Err(error),
        }
    }

    /// What the call says.
    pub fn fields(&self) -> &CallData
        ensures fields { result.now ≡ self.now }
        ensures checked { call_fault self.now ≡ None }
    {
        let _programs = &self.programs;
        &self.fields
    }

    /// The fields, shared with this call.
    pub fn shared_fields(&self) -> Result<Arc<CallData>, AllocError>
        ensures { IfOk result (λ fields. arc_value fields ≡ self.now) }
    {
        Arc::try_clone(&self.fields)
    }

    /// The same call. It shares the fields.
    pub fn clone(&self) -> Result<Call, AllocError>
        ensures { IfOk result (λ copy. copy ≡ self.now) }
    {
        let fields = Arc::try_clone(&self.fields)?;
        let programs = match &self.programs {
            Some(programs) => Some(Programs {
                approval: programs.approval.clone()?,
                clear: programs.clear.clone()?,
            }),
            None => None,
        };
        Ok(Call { fields, programs })
    }

    /// The profile that a block needs to have this call: of version 3 where a program that it brings is of that version.
    pub fn needs(&self) -> Profile
        ensures { result ≡ needed_profile self.now }
    {
        let _fields = &self.fields;
        match &self.programs {
            Some(programs) if is_three(&programs.approval) || is_three(&programs.clear) =>
                Profile::Three,
            _ => Profile::Two,
        }
    }

    /// The application that a creation makes.
    pub fn created(&self, alloc: Global) -> Result<SharedApplication, AllocError>
        requires { creates self.now ≡ true }
        ensures { IfOk result (λ row. row ≡ created self.now) }
    {
        let fields = &self.fields;
        match &self.programs {
            Some(programs) => {
                let row = Application {
                    creator: fields.sender,
                    approval: programs.approval.clone()?,
                    clear: programs.clear.clone()?,
                    global_schema: fields.global_schema,
                    local_schema: fields.local_schema,
                };
                SharedApplication::new(alloc, row)
            }
            None => unreachable!(),
        }
    }

    /// An application after an update.
    pub fn updated(&self, alloc: Global, row: &Application) -> Result<SharedApplication, AllocError>
        requires { updates self.now.completion ≡ true }
        ensures { IfOk result (λ row_after. row_after ≡ updated self.now row.now) }
    {
        let _fields = &self.fields;
        match &self.programs {
            Some(programs) => {
                let clear = programs.clear.clone()?;
                let row = Application {
                    creator: row.creator,
                    approval: programs.approval.clone()?,
                    clear,
                    global_schema: row.global_schema,
                    local_schema: row.local_schema,
                };
                SharedApplication::new(alloc, row)
            }
            None => unreachable!(),
        }
    }
}

/// Whether a program is of version 3.
fn is_three(program: &StoredProgram) -> bool
    ensures { result ≡ is_three (checked program.now) }
{
    program.program().version() == Version::Three
}

/// The programs that the fields bring, or the first rule that the fields break.
fn tested_programs(alloc: Global, fields: &CallData) -> Result<Option<Programs>, CallError>
    ensures ok { IfOk result (λ programs. (call_fault fields.now ≡ None)
        × (programs ≡ program_pair fields.now)) }
    ensures fault { IfErr result (λ e. IsFaultOf (call_fault fields.now) e) }
{
    match field_fault(fields) {
        Some(fault) => Err(Failure::Fault(fault)),
        None => brought_programs(alloc, fields),
    }
}

/// The programs that the fields bring, or the fault of the first that is none.
fn brought_programs(alloc: Global, fields: &CallData) -> Result<Option<Programs>, CallError>
    ensures ok { IfOk result (λ programs. (programs_fault fields.now ≡ None)
        × (programs ≡ program_pair fields.now)) }
    ensures fault { IfErr result (λ e. IsFaultOf (programs_fault fields.now) e) }
{
    if !brings_programs(fields) {
        return Ok(None);
    }
    let approval = program_of(alloc, fields.approval.as_slice())?;
    let clear = program_of(alloc, fields.clear.as_slice())?;
    Ok(Some(Programs { approval, clear }))
}

/// The program of these bytes.
fn program_of(alloc: Global, bytes: &[u8]) -> Result<StoredProgram, CallError>
    ensures ok { IfOk result (λ program. (program ≡ bytes.now)
        × (program_fault (checked bytes.now) ≡ None)) }
    ensures fault { IfErr result (λ e. IsFaultOf (program_fault (checked bytes.now)) e) }
{
    match check(alloc, bytes) {
        Ok(program) => Ok(StoredProgram::new(program)),
        Err(Failure::Fault(fault)) => Err(Failure::Fault(CallFault::Program(fault))),
        Err(Failure::Memory) => Err(Failure::Memory),
    }
}

/// The first rule that the fields break, but for those of programs.
fn field_fault(fields: &CallData) -> Option<CallFault>
    ensures { result ≡ field_fault fields.now }
{
    if fields.accounts.as_slice().len() > MAX_ACCOUNTS {
        return Some(CallFault::Accounts);
    }
    if fields.arguments.as_slice().len() > MAX_ARGUMENTS {
        return Some(CallFault::Args);
    }
    if are_longer(fields.arguments.as_slice(), MAX_ARGUMENT_BYTES) {
        return Some(CallFault::ArgBytes);
    }
    if fields.foreign_applications.as_slice().len() > MAX_FOREIGN_APPLICATIONS {
        return Some(CallFault::Foreign);
    }
    if fields.note.len() > MAX_NOTE_BYTES {
        return Some(CallFault::Note);
    }
    program_and_schema_fault(fields)
}

/// The same, of whether programs and schemas are there.
fn program_and_schema_fault(fields: &CallData) -> Option<CallFault>
    ensures { result ≡ program_and_schema_fault fields.now }
{
    let brings = brings_programs(fields);
    let lacks_one = fields.approval.is_empty() || fields.clear.is_empty();
    let has_one = !(fields.approval.is_empty() && fields.clear.is_empty());
    if brings && lacks_one {
        return Some(CallFault::ProgramsMissing);
    }
    if !brings && has_one {
        return Some(CallFault::ProgramsGiven);
    }
    if !fits_schemas(fields) {
        return Some(CallFault::SchemaSize);
    }
    if fields.application == 0 && fields.completion == Completion::ClearState {
        return Some(CallFault::ClearOnCreate);
    }
    None
}

/// Whether the fields bring programs, as a creation and an update do.
fn brings_programs(fields: &CallData) -> bool
    ensures { result ≡ brings_programs fields.now }
{
    fields.application == 0 || fields.completion == Completion::UpdateApplication
}

/// Whether the schemas are within their limits, and of a creation.
fn fits_schemas(fields: &CallData) -> bool
    ensures { result ≡ fits_schemas fields.now }
{
    let global = entries_in(fields.global_schema);
    let local = entries_in(fields.local_schema);
    if fields.application == 0 {
        global <= MAX_GLOBAL_ENTRIES && local <= MAX_LOCAL_ENTRIES
    } else {
        global == 0 && local == 0
    }
}

/// How many entries a schema allows.
fn entries_in(schema: Schema) -> u16
    ensures { result ≡ entries_in schema }
{
    u16::from(schema.uints) + u16::from(schema.bytes)
}

/// Whether byte strings have more bytes in all than this.
fn are_longer(strings: &[ByteString], most: usize) -> bool
    ensures { result ≡ nat_lt most (total_length strings.now) }
{
    let mut room = most;
    for string in strings {
        if string.len() > room {
            return true;
        }
        room -= string.len();
    }
    false
}
