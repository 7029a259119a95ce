//! What is answered of a call over a whole ledger.

ghost use Rattle.std.specs.Prelude.{◌≡◌, IfOk, Ok};
ghost use Rattle.teal_value.specs.Answer.{Gives};
ghost use Rattle.avm_ops.specs.OpSets.{IsFull};
ghost use Rattle.avm_bytes.specs.Attempts.{attempted_shown};
ghost use Rattle.avm_bytes.specs.Calls.{called, ledger_in, on_ledger};

use crate::answers::done;
use crate::attempts::{Attempted, call_of, header_of, not_made};
use crate::ends::end_of;
use crate::questions::Question;
use crate::statuses::Status;
use crate::troubles::{Refused, refused_for};
use avm_call::Call;
use avm_ledger::{Header, Ledger};
use avm_ops::{Op, OpSet, Ops};
use avm_run::{Executions, FullOps, RunContext, call_on};
use std::alloc::{AllocError, Global};
use std::marker::Brand;
use std::sync::ledger;
use std::sync::ledger::Blank;
use teal_value::Failure;

/// A call over a ledger, as bytes.
#[derive(Drop)]
pub struct CallOn<'a> {
    pub ledger: &'a [u8],
    pub header: &'a [u8],
    pub call: &'a [u8],
}

/// What the bytes of a call over a ledger are.
#[derive(Drop)]
pub struct OnLedger {
    pub ledger: Ledger,
    pub header: Header,
    pub call: Call,
}

impl Question for CallOn<'_> {
    type Answer = Attempted;

    ghost use Rattle.std.specs.Prelude.{◌≡◌};
    ghost use Rattle.avm_bytes.specs.Attempts.{attempted_shown};
    ghost use Rattle.avm_bytes.specs.Calls.{called, on_ledger};

    ghost answers = { λ asked attempted. attempted_shown attempted
        ≡ called (on_ledger asked.ledger.now asked.header.now asked.call.now) };

    fn answer(&self, alloc: Global, ops: OpSet) -> Result<Attempted, AllocError> {
        match on_ledger(alloc, self.ledger, self.header, self.call) {
            Ok(asked) => called_with(alloc, asked, ops),
            Err(failure) => Ok(not_made(alloc, failure.into_fault()?)),
        }
    }
}

/// What the bytes are. The ledger is read first, then the header, then the call.
fn on_ledger(
    alloc: Global,
    ledger: &[u8],
    header: &[u8],
    call: &[u8],
) -> Result<OnLedger, Failure<Refused>>
    ensures { Gives (λ asked. asked) result (on_ledger ledger.now header.now call.now) }
{
    let ledger = ledger_in(alloc, ledger)?;
    let header = header_of(header)?;
    let call = call_of(alloc, call)?;
    Ok(OnLedger {
        ledger,
        header,
        call,
    })
}

pub(crate) fn ledger_in(alloc: Global, bytes: &[u8]) -> Result<Ledger, Failure<Refused>>
    ensures { Gives (λ ledger. ledger) result (ledger_in bytes.now) }
{
    Ledger::read(alloc, bytes).map_err(|failure| failure.map(|_fault| refused_for(
        Status::NoLedger,
        0,
    )))
}

/// Makes the call, and answers the ledger after it.
fn called_with<O: Op>(alloc: Global, asked: OnLedger, ops: Ops<O>) -> Result<Attempted, AllocError>
    requires full { IsFull O.opcode ops }
    ensures { IfOk result (λ attempted. attempted_shown attempted ≡ called (Ok asked)) }
{
    let OnLedger {
        ledger,
        header,
        call,
    } = asked;
    let ops = FullOps::from_full(ops);
    let context = RunContext {
        alloc,
        ops: &ops,
        header: &header,
    };
    called_on::<Brand, O>(&context, ledger, &call, Blank::new(2))
}

fn called_on<L: ledger::Ledger, O: Op>(
    context: &RunContext<'_, O>,
    ledger: Ledger,
    call: &Call,
    blank: Blank,
) -> Result<Attempted, AllocError>
    requires blank { (blank.name ≡ L.name) × (blank.parts ≡ L.parts) × (blank.parts ≡ 2) }
    ensures { IfOk result (λ attempted. attempted_shown attempted
        ≡ called (Ok (record { ledger = ledger; header = context.now.header.now; call = call.now }))) }
{
    let mut executions = Executions::<L>::new(blank);
    let mut spare = None;
    let mut after = ledger;
    let outcome = call_on(context, &mut after, call, &mut spare, &mut executions)?;
    let bytes = after.canonical(context.alloc)?;
    Ok(Attempted {
        answer: done(bytes),
        end: end_of(outcome),
    })
}
