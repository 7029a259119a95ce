//! Carries out rows of stores, which are calls, events of a store or of a journal, and looks at them, and prints each row and,
//! behind `=`, what came of it.
//!
//! All rows are read before the first is carried out. Where memory ends in a row, `memory` is printed, then whether all that is
//! seen of the store is `as before`, and the row is tried once more. So a run to which one growth is refused prints the lines of
//! a run with ample memory, and those words between them; tests/refusals looks at that, for rows of stores alone: rows of a
//! journal are not tried again.
//!
//! `script` says how rows read, `stores` and `journals` what they do.

use crate::journals::Journals;
use crate::script::{Row, Step, rows};
use crate::store_answers::{say, say_memory};
use crate::stores::Stores;
use avm_ops::Op;
use avm_run::FullOps;
use std::test::Fail;

/// Carries all of these rows out.
pub fn carry_out_all<O: Op>(
    rt: &HostRuntime,
    ops: &FullOps<O>,
    lines: Vec<String>,
) -> Result<(), Fail> {
    let alloc = rt.alloc();
    let rows = rows(alloc, lines)?;
    let mut stores = Stores::new(alloc)?;
    let mut journals = Journals::new(alloc);
    carry_out_rows(rt, ops, &mut stores, &mut journals, rows.as_slice())
}

fn carry_out_rows<O: Op>(
    rt: &HostRuntime,
    ops: &FullOps<O>,
    stores: &mut Stores,
    journals: &mut Journals,
    rows: &[Row],
) -> Result<(), Fail> {
    println!(rt; "stores")?;
    for row in rows {
        println!(rt; "{}", row.line)?;
        carry_out(rt, ops, stores, journals, row)?;
    }
    Ok(())
}

/// Carries out a row, at the second try if memory is refused in the first.
fn carry_out<O: Op>(
    rt: &HostRuntime,
    ops: &FullOps<O>,
    stores: &mut Stores,
    journals: &mut Journals,
    row: &Row,
) -> Result<(), Fail> {
    let alloc = rt.alloc();
    for _time in 0..2 {
        let before = stores.seen();
        let said = match &row.step {
            Step::Store(event) => stores.carry_out(alloc, ops, event),
            Step::Parts(stored) => journals.open(alloc, stored),
            Step::Journal => return on_journal(rt, ops, journals, row.line.as_str()),
            Step::Told(text) => return say_text(rt, text),
        };
        match said {
            Ok(said) => return say(rt, &said),
            Err(_) => say_memory(rt, stores.is_as_before(alloc, &before, &row.step)?)?,
        }
    }
    Err("memory is refused twice".into())
}

/// Carries out a row of the journal.
fn on_journal<O: Op>(
    rt: &HostRuntime,
    ops: &FullOps<O>,
    journals: &mut Journals,
    line: &str,
) -> Result<(), Fail> {
    let (_head, rest) = line.split_once(' ').unwrap_or((line, ""));
    let words: Vec<&str> = rest.split_whitespace().collect(rt.alloc())?;
    say(rt, &journals.carry_out(rt.alloc(), ops, words.as_slice())?)
}

/// The answer that is known from reading a row; a heading has none.
fn say_text(rt: &HostRuntime, text: &Option<String>) -> Result<(), Fail> {
    if let Some(text) = text {
        println!(rt; "= {text}")?;
    }
    Ok(())
}
