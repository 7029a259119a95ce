//! Which run of the pool it is.

use std::marker::Brand;

/// What a run of the pool is of: the book that its log stands in, and the ledger, the header and the calls of its draft. They
/// exist in proofs alone, and each run picks its own: so values behind locks are known to be of it by their types.
pub trait Naming {
    ghost use Rattle.std.specs.Prelude.{List};
    ghost use Rattle.logbook.specs.Pages.{Book};
    ghost use Rattle.avm_ledger.specs.declared.header.Header.{Header};
    ghost use Rattle.avm_ledger.specs.Ledgers.{Ledger};
    ghost use Rattle.avm_items.specs.declared.call_data.CallData.{CallData};

    ghost book: { Book };

    ghost base: { Ledger };

    ghost header: { Header };

    ghost calls: { List CallData };
}

impl Naming for Brand {
    ghost use Rattle.std.specs.Prelude.{[]};
    ghost use Rattle.avm_ledger.specs.Ledgers.{empty_ledger};
    ghost use Rattle.avm_ledger.specs.declared.header.Profile.TheVariants.{Two};

    ghost book = { record { number = 0; log_name = 0; cells_name = 0 } };

    ghost base = { empty_ledger };

    ghost header = { record { profile = Two; round = 0; latest_timestamp = 0; min_fee = 0; min_balance = 0; max_life = 0 } };

    ghost calls = { [] };
}
