//! The laws of a block's bytes, each the contract of a function without work.

ghost use Rattle.std.specs.Prelude.{◌≡◌, ◌∷◌, ◌++◌, [], Ok, Err};
ghost use Rattle.teal_value.specs.declared.fault.Fault.TheVariants as fault;
ghost use Rattle.avm_ledger.specs.WorkedLedgers.{zeros};
ghost use Rattle.avm_call.specs.declared.outcome.Why.TheVariants as why;
ghost use Rattle.avm_call.specs.declared.outcome.Cause.TheVariants as cause;
ghost use Rattle.avm_call.specs.declared.outcome.Outcome.TheVariants as outcome;
ghost use Rattle.avm_block.specs.declared.block_fault.BlockFault.TheVariants.{Field, Format, Magic, Order, Truncated};
ghost use Rattle.avm_block.specs.BlockEncoding.{magic};
ghost use Rattle.avm_block.specs.OutcomeReader.{outcome_at};
ghost use Rattle.avm_block.specs.BlockReader.{block_at};
ghost use Rattle.avm_block.specs.BlockRoundTrip.{NoneBeginsAnother, ReadsBack, EncodesBack};
ghost use Rattle.avm_block.specs.WorkedBlocks.{any_call, up_to_count};

/// A block is read from its bytes.
pub fn reads_back()
    ensures { ReadsBack }
{}

/// A block that is read has the bytes as its one encoding.
pub fn encodes_back()
    ensures { EncodesBack }
{}

/// No encoding of a block begins another.
pub fn none_begins_another()
    ensures { NoneBeginsAnother }
{}

/// Outcomes, and bytes that are none, read.
pub fn worked_outcomes()
    ensures faulted { outcome_at (2 ∷ 0x18 ∷ 0 ∷ 7 ∷ []) ≡ Ok (outcome.Faulted fault.Assert 7, []) }
    ensures refused { outcome_at (3 ∷ 4 ∷ 9 ∷ []) ≡ Ok (outcome.Refused why.IdsEnd, 9 ∷ []) }
    ensures cleared { outcome_at (4 ∷ 2 ∷ 1 ∷ 4 ∷ 0 ∷ [])
        ≡ Ok (outcome.ClearedAnyway (cause.Faulted fault.Err 1024), []) }
    ensures place_behind_all { outcome_at (2 ∷ 1 ∷ 4 ∷ 1 ∷ []) ≡ Err Field }
    ensures no_fault { outcome_at (2 ∷ 25 ∷ []) ≡ Err Field }
    ensures no_why { outcome_at (3 ∷ 5 ∷ []) ≡ Err Field }
    ensures no_outcome { outcome_at (5 ∷ []) ≡ Err Field }
    ensures end_in_a_place { outcome_at (2 ∷ 1 ∷ 0 ∷ []) ≡ Err Truncated }
{}

/// Bytes that are no blocks, read.
pub fn worked_blocks()
    ensures nothing { block_at any_call [] ≡ Err Truncated }
    ensures other_letters { block_at any_call (0x41 ∷ 0x56 ∷ 0x4d ∷ 0x43 ∷ []) ≡ Err Magic }
    ensures other_format { block_at any_call (magic ++ 3 ∷ []) ≡ Err Format }
    ensures other_profile { block_at any_call (magic ++ 2 ∷ 4 ∷ []) ≡ Err Field }
    ensures end_in_the_base { block_at any_call (magic ++ 1 ∷ zeros 31) ≡ Err Truncated }
    ensures many_entries { block_at any_call (up_to_count ++ 0 ∷ 0 ∷ 0x10 ∷ 1 ∷ []) ≡ Err Field }
    ensures timestamp_zero { block_at any_call
        (up_to_count ++ 0 ∷ 0 ∷ 0 ∷ 1 ∷ zeros 8) ≡ Err Order }
{}
