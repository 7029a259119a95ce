//! That the outcomes of calls are such as a block may have.

ghost use Rattle.std.specs.Prelude.{IsTrue};
ghost use Rattle.avm_items.specs.declared.item.Item.TheVariants as item;
ghost use Rattle.avm_items.specs.LedgerItems.{at};
ghost use Rattle.avm_call.specs.Ends.{has_programs};
ghost use Rattle.avm_call.specs.Places.{HasPlace};
ghost use Rattle.avm_call.specs.Replay.{outcome_on};

use avm_call::Call;
use avm_ledger::{Header, Ledger};

/// A fault of a call is at a place of a program, or at its end. To know it, the application that is called is looked up,
/// since its programs are checked ones.
pub fn outcome_has_place(ledger: &Ledger, call: &Call, header: &Header)
    ensures { HasPlace (outcome_on ledger.now call.now header.now) }
{
    let _header = header;
    application_has_programs(ledger, call.fields().application);
}

fn application_has_programs(ledger: &Ledger, id: u64)
    ensures { IsTrue (has_programs (at ledger.now (item.App id))) }
{
    if let Some(row) = ledger.application(id) {
        let row = row.get();
        let _approval = row.approval.program();
        let _clear = row.clear.program();
    }
}
