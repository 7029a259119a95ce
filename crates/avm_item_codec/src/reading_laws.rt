//! The laws of the bytes of items and of their values, each the contract of a function without work.

ghost use Rattle.std.specs.Prelude.{◌≡◌, ◌∷◌, ◌++◌, [], Ok, Err};
ghost use Rattle.avm_ledger.specs.WorkedLedgers.{zeros};
ghost use Rattle.avm_ledger.specs.declared.ledger_fault.LedgerFault.TheVariants.{Malformed, Rest, Truncated};
ghost use Rattle.avm_item_codec.specs.ItemReader.{items_at};
ghost use Rattle.avm_item_codec.specs.ItemEncoding.{items_bytes};
ghost use Rattle.avm_item_codec.specs.ItemRoundTrip.{ItemReadsBack, ItemEncodesBack, LedgersHaveValues, ListReadsBack, ListEncodesBack, MapReadsBack, NoItemBeginsAnother, NoValueBeginsAnother, ValueReadsBack, ValueEncodesBack};
ghost use Rattle.avm_item_codec.specs.WorkedItems.{counts_of_seven, key_a, next_is_ten, no_application, three_entries, worked_items};

/// Items, values and lists of items are read from their bytes.
pub fn reads_back()
    ensures item { ItemReadsBack }
    ensures value { ValueReadsBack }
    ensures list { ListReadsBack }
    ensures map { MapReadsBack }
{}

/// What is read keeps the rules, and has the bytes as its encoding: the only one of an item and of a value.
pub fn encodes_back()
    ensures item { ItemEncodesBack }
    ensures value { ValueEncodesBack }
    ensures list { ListEncodesBack }
{}

/// No encoding of an item begins another's, and none of an item's values begins another.
pub fn none_begins_another()
    ensures item { NoItemBeginsAnother }
    ensures value { NoValueBeginsAnother }
{}

/// Each item of a ledger that keeps the rules can be written with its value, and read.
pub fn ledgers_have_values()
    ensures { LedgersHaveValues }
{}

/// Items, and bytes that are none, read.
pub fn worked_items()
    ensures none { items_at (zeros 4) ≡ Ok [] }
    ensures any_order { items_at three_entries ≡ Ok worked_items }
    ensures in_order { items_bytes worked_items
        ≡ 0 ∷ 0 ∷ 0 ∷ 3 ∷ no_application ++ counts_of_seven ++ key_a }
    ensures twice { items_at (0 ∷ 0 ∷ 0 ∷ 2 ∷ key_a ++ key_a) ≡ Err Malformed }
    ensures nothing { items_at [] ≡ Err Truncated }
    ensures one_too_few { items_at (0 ∷ 0 ∷ 0 ∷ 2 ∷ key_a) ≡ Err Truncated }
    ensures one_too_many { items_at (0 ∷ 0 ∷ 0 ∷ 1 ∷ key_a ++ next_is_ten) ≡ Err Rest }
    ensures no_kind { items_at (0 ∷ 0 ∷ 0 ∷ 1 ∷ 5 ∷ []) ≡ Err Malformed }
    ensures neither { items_at (0 ∷ 0 ∷ 0 ∷ 1 ∷ 1 ∷ zeros 7 ++ 9 ∷ 2 ∷ []) ≡ Err Malformed }
    ensures no_next_id { items_at (0 ∷ 0 ∷ 0 ∷ 1 ∷ 0 ∷ zeros 8) ≡ Err Malformed }
    ensures long_key { items_at (0 ∷ 0 ∷ 0 ∷ 1 ∷ 3 ∷ zeros 8 ++ 65 ∷ zeros 65) ≡ Err Malformed }
    ensures many_entries { items_at (0 ∷ 0 ∷ 0 ∷ 1 ∷ 4 ∷ zeros 40 ++ 1 ∷ 17 ∷ [])
        ≡ Err Malformed }
    ensures many_counted { items_at (0 ∷ 0 ∷ 0 ∷ 1 ∷ 2 ∷ zeros 8 ++ 1 ∷ 64 ∷ 1 ∷ [])
        ≡ Err Malformed }
{}
