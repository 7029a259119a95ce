//! The laws of a ledger's bytes, each the contract of a function without work.

ghost use Rattle.std.specs.Prelude.{◌≡◌, ◌∷◌, ◌++◌, [], Ok, Err};
ghost use Rattle.avm_ledger.specs.declared.ledger_fault.LedgerFault.TheVariants.{Malformed, Truncated, Rest};
ghost use Rattle.avm_ledger.specs.Ledgers.{empty_ledger};
ghost use Rattle.avm_ledger.specs.Encodings.{ledger_bytes};
ghost use Rattle.avm_ledger.specs.LedgerReader.{ledger_at};
ghost use Rattle.avm_ledger.specs.WorkedLedgers.{falling_keys, one_local_state, two_entries, two_uint_entries, up_to_state, worked_ledger, zeros};
ghost use Rattle.avm_ledger.specs.LedgerRoundTrip.{KeepsTheRules, NoneBeginsAnother, ReadsBack, ReadsBackAlone, EncodesBack};

/// A ledger that keeps the rules is read from its bytes.
pub fn reads_back()
    ensures front { ReadsBack }
    ensures alone { ReadsBackAlone }
{}

/// A ledger that is read keeps the rules, and has the bytes as its one encoding.
pub fn encodes_back()
    ensures bytes { EncodesBack }
    ensures rules { KeepsTheRules }
{}

/// No encoding of a ledger begins another.
pub fn none_begins_another()
    ensures { NoneBeginsAnother }
{}

/// Ledgers, and bytes that are none, read.
#[tactic(auto, unfolding(teal_table::specs::Table::row_of, teal_table::specs::Table::opcodes, teal_table::specs::Table::opcode_at, teal_check::specs::WellFormed::checked, teal_check::specs::WellFormed::placed_at, teal_check::specs::WellFormed::placed_from, teal_check::specs::WellFormed::with_targets, teal_table::specs::LeftOut::left_out_at))]
pub fn worked_ledgers()
    ensures empty { ledger_at (zeros 7 ++ 1 ∷ zeros 8) ≡ Ok empty_ledger }
    ensures read { ledger_at (up_to_state ++ two_entries ++ one_local_state) ≡ Ok worked_ledger }
    ensures encoded { ledger_bytes worked_ledger ≡ up_to_state ++ two_entries ++ one_local_state }
    ensures nothing { ledger_at [] ≡ Err Truncated }
    ensures no_next_id { ledger_at (zeros 16) ≡ Err Malformed }
    ensures byte_behind { ledger_at (zeros 7 ++ 1 ∷ zeros 9) ≡ Err Rest }
    ensures falling_keys { ledger_at (up_to_state ++ falling_keys ++ zeros 4) ≡ Err Malformed }
    ensures three_entries { ledger_at (up_to_state ++ 3 ∷ []) ≡ Err Malformed }
    ensures second_uint { ledger_at (up_to_state ++ two_uint_entries) ≡ Err Malformed }
    ensures end_in_a_key { ledger_at (up_to_state ++ 1 ∷ 65 ∷ zeros 64) ≡ Err Truncated }
    ensures long_key { ledger_at (up_to_state ++ 1 ∷ 65 ∷ zeros 65) ≡ Err Malformed }
    ensures id_of_the_next { ledger_at (zeros 7 ++ 1 ∷ 0 ∷ 0 ∷ 0 ∷ 1 ∷ zeros 7 ++ 1 ∷ [])
        ≡ Err Malformed }
{}
