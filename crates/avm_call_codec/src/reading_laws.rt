//! The laws of a call's bytes, each the contract of a function without work.

ghost use Rattle.std.specs.Prelude.{◌≡◌, ◌∷◌, ◌++◌, [], Ok, Err};
ghost use Rattle.avm_ledger.specs.WorkedLedgers.{zeros};
ghost use Rattle.avm_call_codec.specs.declared.call_data_fault.CallDataFault.TheVariants.{Field, Truncated, Rest};
ghost use Rattle.avm_call_codec.specs.CallEncoding.{call_bytes};
ghost use Rattle.avm_call_codec.specs.CallReader.{call_at, call_from};
ghost use Rattle.avm_call_codec.specs.WorkedCallBytes.{behind_completion, up_to_completion, worked_call};
ghost use Rattle.avm_call_codec.specs.CallRoundTrip.{NoneBeginsAnother, ReadsBack, ReadsBackAlone, ReadsBackAtAPlace, EncodesBack, EncodesBackAlone, EncodesBackAtAPlace};

/// A call is read from its bytes.
pub fn reads_back()
    ensures front { ReadsBack }
    ensures alone { ReadsBackAlone }
    ensures at_a_place { ReadsBackAtAPlace }
{}

/// A call that is read has the bytes as its one encoding.
pub fn encodes_back()
    ensures front { EncodesBack }
    ensures alone { EncodesBackAlone }
    ensures at_a_place { EncodesBackAtAPlace }
{}

/// No encoding of a call begins another.
pub fn none_begins_another()
    ensures { NoneBeginsAnother }
{}

/// Calls, and bytes that are none, read.
pub fn worked_calls()
    ensures read { call_at (up_to_completion ++ 2 ∷ behind_completion) ≡ Ok worked_call }
    ensures encoded { call_bytes worked_call ≡ up_to_completion ++ 2 ∷ behind_completion }
    ensures at_a_place { call_from (7
        ∷ 7 ∷ 7 ∷ up_to_completion ++ 2 ∷ behind_completion ++ 9 ∷ []) 3 ≡ Ok (worked_call, 190) }
    ensures no_completion { call_at (up_to_completion ++ 6 ∷ []) ≡ Err Field }
    ensures nothing { call_at [] ≡ Err Truncated }
    ensures end_in_the_note { call_at (zeros 56 ++ 0 ∷ 2 ∷ 0x61 ∷ []) ≡ Err Truncated }
    ensures byte_behind { call_at (up_to_completion ++ 2 ∷ behind_completion ++ 0 ∷ []) ≡ Err Rest }
    ensures place_behind_the_end { call_from (0 ∷ []) 2 ≡ Err Truncated }
{}
