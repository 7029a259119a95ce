//! The definitions, computed on programs with known results: each function has no work, and its contract is what the
//! definition gives.

ghost use Rattle.std.specs.Prelude.{◌≡◌, ◌∷◌, ◌++◌, [], replicate, Some, None};
ghost use Rattle.teal_value.specs.declared.value.Value.TheVariants.{Uint};
ghost use Rattle.teal_value.specs.declared.fault.Fault.TheVariants as fault;
ghost use Rattle.avm_ledger.specs.declared.header.Profile.TheVariants as profile;
ghost use Rattle.avm_call.specs.declared.outcome.Outcome.TheVariants as outcome;
ghost use Rattle.avm_states.specs.Schemas.{no_entries};
ghost use Rattle.avm_items.specs.declared.call_data.Completion.TheVariants as completion;
ghost use Rattle.avm_call.specs.declared.outcome.Cause.TheVariants as cause;
ghost use Rattle.avm_call.specs.declared.outcome.Why.TheVariants as why;
ghost use Rattle.std.specs.Prelude.{length};
ghost use Rattle.teal_table.specs.declared.opcode.Opcode.TheVariants as op;
ghost use Rattle.teal_code.specs.declared.instr.Immediates.TheVariants as is;
ghost use Rattle.avm_ledger.specs.Ledgers.{empty_ledger};
ghost use Rattle.avm_ledger.specs.Encodings.{ledger_bytes};
ghost use Rattle.avm_call.specs.OutcomeEncoding.{outcome_bytes};
ghost use Rattle.avm_call.specs.Views.{view_after, Runs, AtEnd};
ghost use Rattle.avm_call.specs.WorkedPrograms.{outcome_of_program, end_in, plain_creation, zero_header};
ghost use Rattle.avm_call.specs.WorkedCalls.{call_one, one_uint_allowed, outcomes_of_calls, ledger_after_calls, approving, counting, put_and_err, uint_then_bytes, put_delete_put, local_put_and_reject, counter_after, local_state_after, next_id_after};

/// Ends of programs: one uint64 on the stack approves or rejects, and anything else is a fault at the program's length.
#[tactic(auto, unfolding(teal_table::specs::Table::row_of, teal_table::specs::Table::opcodes, teal_table::specs::Table::opcode_at, teal_table::specs::Fields::txn_field_at, teal_table::specs::Fields::global_field_at, avm_ops::specs::Effect::effect))]
pub fn ends()
    ensures one { outcome_of_program (0x02 ∷ 0x20 ∷ 0x01 ∷ 0x01 ∷ 0x22 ∷ []) ≡ outcome.Approved }
    ensures nothing { outcome_of_program (0x02 ∷ []) ≡ outcome.Faulted fault.FinalDepth 1 }
    ensures two_values { outcome_of_program (0x02 ∷ 0x20 ∷ 0x01 ∷ 0x01 ∷ 0x22 ∷ 0x22 ∷ [])
        ≡ outcome.Faulted fault.FinalDepth 6 }
    ensures bytes { outcome_of_program (0x02 ∷ 0x26 ∷ 0x01 ∷ 0x00 ∷ 0x28 ∷ [])
        ≡ outcome.Faulted fault.FinalBytes 5 }
    ensures returned { outcome_of_program (0x02 ∷ 0x20 ∷ 0x01 ∷ 0x01 ∷ 0x22 ∷ 0x22 ∷ 0x43 ∷ [])
        ≡ outcome.Approved }
    ensures difference_of_zero { outcome_of_program (0x02
        ∷ 0x20 ∷ 0x01 ∷ 0x07 ∷ 0x22 ∷ 0x22 ∷ 0x09 ∷ []) ≡ outcome.Rejected }
{}

/// Sums, differences and words.
#[tactic(auto, unfolding(teal_table::specs::Table::row_of, teal_table::specs::Table::opcodes, teal_table::specs::Table::opcode_at, teal_table::specs::Fields::txn_field_at, teal_table::specs::Fields::global_field_at, avm_ops::specs::Effect::effect))]
pub fn numbers()
    ensures sum_too_large { outcome_of_program (0x02 ∷ 0x20 ∷ 0x02 ∷ 0xff ∷ 0xff
        ∷ 0xff ∷ 0xff ∷ 0xff ∷ 0xff ∷ 0xff ∷ 0xff ∷ 0xff ∷ 0x01 ∷ 0x01 ∷ 0x22 ∷ 0x23 ∷ 0x08 ∷ [])
        ≡ outcome.Faulted fault.Overflow 16 }
    ensures wide_sum { outcome_of_program (0x02 ∷ 0x20 ∷ 0x02 ∷ 0xff ∷ 0xff
        ∷ 0xff ∷ 0xff ∷ 0xff ∷ 0xff ∷ 0xff ∷ 0xff ∷ 0xff ∷ 0x01 ∷ 0x01 ∷ 0x22 ∷ 0x23 ∷ 0x1e ∷ [])
        ≡ outcome.Faulted fault.FinalDepth 17 }
    ensures negative { outcome_of_program (0x02
        ∷ 0x20 ∷ 0x02 ∷ 0x05 ∷ 0x07 ∷ 0x22 ∷ 0x23 ∷ 0x09 ∷ []) ≡ outcome.Faulted fault.Negative 7 }
    ensures high_word { outcome_of_program (0x02 ∷ 0x20 ∷ 0x02 ∷ 0xff ∷ 0xff ∷ 0xff ∷ 0xff
        ∷ 0xff ∷ 0xff ∷ 0xff ∷ 0xff ∷ 0xff ∷ 0x01 ∷ 0xfe ∷ 0xff ∷ 0xff ∷ 0xff ∷ 0xff ∷ 0xff ∷ 0xff
        ∷ 0xff ∷ 0xff ∷ 0x01 ∷ 0x22 ∷ 0x22 ∷ 0x1d ∷ 0x48 ∷ 0x23 ∷ 0x12 ∷ []) ≡ outcome.Approved }
    ensures low_word { outcome_of_program (0x02 ∷ 0x20 ∷ 0x02 ∷ 0xff ∷ 0xff ∷ 0xff ∷ 0xff ∷ 0xff
        ∷ 0xff ∷ 0xff ∷ 0xff ∷ 0xff ∷ 0x01 ∷ 0x01 ∷ 0x22 ∷ 0x22 ∷ 0x1d ∷ 0x23 ∷ 0x12 ∷ 0x43 ∷ [])
        ≡ outcome.Approved }
    ensures btoi_of_nothing { outcome_of_program (0x02 ∷ 0x26 ∷ 0x01 ∷ 0x00 ∷ 0x28 ∷ 0x17 ∷ [])
        ≡ outcome.Rejected }
    ensures btoi_of_eight { outcome_of_program (0x02 ∷ 0x20 ∷ 0x01 ∷ 0xff ∷ 0xff ∷ 0xff
        ∷ 0xff ∷ 0xff ∷ 0xff ∷ 0xff ∷ 0xff ∷ 0xff ∷ 0x01 ∷ 0x26 ∷ 0x01 ∷ 0x08 ∷ 0xff ∷ 0xff ∷ 0xff
        ∷ 0xff ∷ 0xff ∷ 0xff ∷ 0xff ∷ 0xff ∷ 0x28 ∷ 0x17 ∷ 0x22 ∷ 0x12 ∷ []) ≡ outcome.Approved }
    ensures btoi_of_nine { outcome_of_program (0x02 ∷ 0x26 ∷ 0x01
        ∷ 0x09 ∷ 0xff ∷ 0xff ∷ 0xff ∷ 0xff ∷ 0xff ∷ 0xff ∷ 0xff ∷ 0xff ∷ 0xff ∷ 0x28 ∷ 0x17 ∷ [])
        ≡ outcome.Faulted fault.BtoiLength 14 }
{}

/// Longer encodings, branches, blocks that are passed over, and byte strings.
#[tactic(auto, unfolding(teal_table::specs::Table::row_of, teal_table::specs::Table::opcodes, teal_table::specs::Table::opcode_at, teal_table::specs::Fields::txn_field_at, teal_table::specs::Fields::global_field_at, avm_ops::specs::Effect::effect))]
pub fn paths()
    ensures longer_varuint { outcome_of_program (0x02 ∷ 0x20 ∷ 0x81 ∷ 0x00 ∷ 0x01 ∷ 0x22 ∷ [])
        ≡ outcome.Approved }
    ensures branch_to_the_end { outcome_of_program (0x02
        ∷ 0x20 ∷ 0x01 ∷ 0x01 ∷ 0x22 ∷ 0x42 ∷ 0x00 ∷ 0x00 ∷ []) ≡ outcome.Approved }
    ensures block_passed_over { outcome_of_program (0x02 ∷ 0x20
        ∷ 0x01 ∷ 0x01 ∷ 0x42 ∷ 0x00 ∷ 0x03 ∷ 0x20 ∷ 0x01 ∷ 0x00 ∷ 0x22 ∷ []) ≡ outcome.Approved }
    ensures second_block { outcome_of_program (0x02 ∷ 0x20
        ∷ 0x01 ∷ 0x01 ∷ 0x42 ∷ 0x00 ∷ 0x00 ∷ 0x20 ∷ 0x01 ∷ 0x00 ∷ 0x22 ∷ []) ≡ outcome.Rejected }
    ensures same_strings { outcome_of_program (0x02
        ∷ 0x26 ∷ 0x01 ∷ 0x02 ∷ 0x68 ∷ 0x69 ∷ 0x28 ∷ 0x28 ∷ 0x12 ∷ []) ≡ outcome.Approved }
    ensures no_opt_in { outcome_of_program (0x02 ∷ 0x20 ∷ 0x01 ∷ 0x01 ∷ 0x31 ∷ 0x19
        ∷ 0x22 ∷ 0x12 ∷ 0x40 ∷ 0x00 ∷ 0x01 ∷ 0x00 ∷ 0x22 ∷ []) ≡ outcome.Faulted fault.Err 11 }
    ensures unknown_opcode { outcome_of_program (0x02 ∷ 0xff ∷ []) ≡ outcome.Faulted fault.Err 1 }
{}

/// Programs of version 3.
#[tactic(auto, unfolding(teal_table::specs::Table::row_of, teal_table::specs::Table::opcodes, teal_table::specs::Table::opcode_at, teal_table::specs::Fields::txn_field_at, teal_table::specs::Fields::global_field_at, avm_ops::specs::Effect::effect))]
pub fn version_three()
    ensures swapped { end_in profile.Three (0x03 ∷ 0x20 ∷ 0x03
        ∷ 0x05 ∷ 0x07 ∷ 0x01 ∷ 0x22 ∷ 0x23 ∷ 0x4c ∷ 0x09 ∷ 0x44 ∷ 0x24 ∷ []) ≡ outcome.Approved }
    ensures assert_of_zero { end_in profile.Three (0x03
        ∷ 0x20 ∷ 0x01 ∷ 0x07 ∷ 0x22 ∷ 0x22 ∷ 0x09 ∷ 0x44 ∷ []) ≡ outcome.Faulted fault.Assert 7 }
    ensures highest_bit_of_bytes { end_in profile.Three
        (0x03 ∷ 0x80 ∷ 0x01 ∷ 0x80 ∷ 0x81 ∷ 0x00 ∷ 0x53 ∷ []) ≡ outcome.Approved }
    ensures second_bit_of_a_number { end_in profile.Three
        (0x03 ∷ 0x81 ∷ 0x02 ∷ 0x81 ∷ 0x01 ∷ 0x53 ∷ []) ≡ outcome.Approved }
    ensures bit_out_of_range { end_in profile.Three (0x03 ∷ 0x81 ∷ 0x02 ∷ 0x81 ∷ 0x40 ∷ 0x53 ∷ [])
        ≡ outcome.Faulted fault.Range 5 }
    ensures top_dug { end_in profile.Three
        (0x03 ∷ 0x20 ∷ 0x01 ∷ 0x04 ∷ 0x22 ∷ 0x4b ∷ 0x00 ∷ 0x12 ∷ []) ≡ outcome.Approved }
    ensures nothing_to_dig { end_in profile.Three
        (0x03 ∷ 0x20 ∷ 0x01 ∷ 0x04 ∷ 0x22 ∷ 0x4b ∷ 0x01 ∷ []) ≡ outcome.Faulted fault.Underflow 5 }
    ensures newer_profile { end_in profile.Three
        (0x02 ∷ 0x20 ∷ 0x01 ∷ 0x03 ∷ 0x32 ∷ 0x05 ∷ 0x22 ∷ 0x12 ∷ []) ≡ outcome.Approved }
    ensures older_profile { end_in profile.Two
        (0x02 ∷ 0x20 ∷ 0x01 ∷ 0x03 ∷ 0x32 ∷ 0x05 ∷ 0x22 ∷ 0x12 ∷ []) ≡ outcome.Rejected }
    ensures only_in_version_three { end_in profile.Three (0x02 ∷ 0x44 ∷ [])
        ≡ outcome.Faulted fault.Err 1 }
{}

/// Where the stack is full, and where a byte string gets too long.
#[tactic(auto, unfolding(teal_table::specs::Table::row_of, teal_table::specs::Table::opcodes, teal_table::specs::Table::opcode_at, teal_table::specs::Fields::txn_field_at, teal_table::specs::Fields::global_field_at, avm_ops::specs::Effect::effect))]
pub fn limits()
    ensures stack_full { outcome_of_program (0x02 ∷ 0x20
        ∷ 0x01 ∷ 0x01 ∷ 0x22 ∷ 0x49 ∷ replicate 500 0x4a) ≡ outcome.Faulted fault.StackFull 505 }
    ensures too_long { outcome_of_program (0x02 ∷ 0x26
        ∷ 0x01 ∷ 0x40 ∷ (replicate 64 0x61 ++ 0x28 ∷ 0x49 ∷ 0x50 ∷ 0x49 ∷ 0x50 ∷ 0x49 ∷ 0x50 ∷ 0x49
        ∷ 0x50 ∷ 0x49 ∷ 0x50 ∷ 0x49 ∷ 0x50 ∷ 0x49 ∷ 0x50 ∷ [])) ≡ outcome.Faulted fault.TooLong 82 }
{}

/// A creation counts, a later call counts on, and a creation without room leaves no trace.
#[tactic(auto, unfolding(teal_table::specs::Table::row_of, teal_table::specs::Table::opcodes, teal_table::specs::Table::opcode_at, teal_table::specs::Fields::txn_field_at, teal_table::specs::Fields::global_field_at, avm_ops::specs::Effect::effect))]
pub fn creations()
    ensures outcomes { outcomes_of_calls (plain_creation counting counting one_uint_allowed
        no_entries ∷ call_one completion.NoOp ∷ []) ≡ outcome.Approved ∷ outcome.Approved ∷ [] }
    ensures once { counter_after (plain_creation counting counting one_uint_allowed no_entries ∷ [])
        ≡ Some (Uint 1) }
    ensures twice { counter_after (plain_creation counting counting one_uint_allowed no_entries
        ∷ call_one completion.NoOp ∷ []) ≡ Some (Uint 2) }
    ensures no_room { outcomes_of_calls (plain_creation counting counting no_entries no_entries
        ∷ []) ≡ outcome.Faulted fault.Schema 13 ∷ [] }
    ensures id_kept { next_id_after (plain_creation counting
        counting no_entries no_entries ∷ []) ≡ 1 }
    ensures id_taken { next_id_after (plain_creation counting
        counting one_uint_allowed no_entries ∷ []) ≡ 2 }
    ensures two_kinds { outcomes_of_calls (plain_creation uint_then_bytes
        approving one_uint_allowed no_entries ∷ []) ≡ outcome.Faulted fault.Schema 13 ∷ [] }
    ensures put_again { outcomes_of_calls (plain_creation put_delete_put
        approving one_uint_allowed no_entries ∷ []) ≡ outcome.Approved ∷ [] }
    ensures closed_out { outcomes_of_calls (record (plain_creation approving approving no_entries
        no_entries) { completion = completion.CloseOut } ∷ []) ≡ outcome.Refused why.NotIn ∷ [] }
    ensures closed_out_id { next_id_after (record (plain_creation approving
        approving no_entries no_entries) { completion = completion.CloseOut } ∷ []) ≡ 1 }
{}

/// Opting in, a rejection that leaves nothing, and clearing whatever the program does.
#[tactic(auto, unfolding(teal_table::specs::Table::row_of, teal_table::specs::Table::opcodes, teal_table::specs::Table::opcode_at, teal_table::specs::Fields::txn_field_at, teal_table::specs::Fields::global_field_at, avm_ops::specs::Effect::effect))]
pub fn local_states()
    ensures rejected { outcomes_of_calls (plain_creation local_put_and_reject
        approving no_entries one_uint_allowed ∷ call_one completion.OptIn ∷ [])
        ≡ outcome.Approved ∷ outcome.Rejected ∷ [] }
    ensures not_in { local_state_after (plain_creation local_put_and_reject
        approving no_entries one_uint_allowed ∷ call_one completion.OptIn ∷ []) ≡ None }
    ensures in_already { outcomes_of_calls (plain_creation approving approving
        no_entries one_uint_allowed ∷ call_one completion.OptIn ∷ call_one completion.OptIn ∷ [])
        ≡ outcome.Approved ∷ outcome.Approved ∷ outcome.Refused why.AlreadyIn ∷ [] }
    ensures opted_in { local_state_after (plain_creation approving
        approving no_entries one_uint_allowed ∷ call_one completion.OptIn ∷ []) ≡ Some [] }
    ensures cleared { outcomes_of_calls (plain_creation approving put_and_err one_uint_allowed
        one_uint_allowed ∷ call_one completion.OptIn ∷ call_one completion.ClearState
        ∷ call_one completion.ClearState ∷ []) ≡ outcome.Approved ∷ outcome.Approved
        ∷ outcome.ClearedAnyway (cause.Faulted fault.Err 11) ∷ outcome.Refused why.NotIn ∷ [] }
    ensures put_undone { counter_after (plain_creation approving put_and_err one_uint_allowed
        one_uint_allowed ∷ call_one completion.OptIn ∷ call_one completion.ClearState ∷ []) ≡ None }
    ensures out { local_state_after (plain_creation approving put_and_err one_uint_allowed
        one_uint_allowed ∷ call_one completion.OptIn ∷ call_one completion.ClearState ∷ []) ≡ None }
    ensures gone { outcomes_of_calls (plain_creation approving approving no_entries one_uint_allowed
        ∷ call_one completion.OptIn ∷ call_one completion.DeleteApplication ∷ call_one
        completion.NoOp ∷ call_one completion.ClearState ∷ []) ≡ outcome.Approved ∷ outcome.Approved
        ∷ outcome.Approved ∷ outcome.Refused why.NoApp ∷ outcome.ClearedAnyway cause.Gone ∷ [] }
{}

/// The bytes of ledgers and outcomes.
#[tactic(auto, unfolding(teal_table::specs::Table::row_of, teal_table::specs::Table::opcodes, teal_table::specs::Table::opcode_at, teal_table::specs::Fields::txn_field_at, teal_table::specs::Fields::global_field_at, avm_ops::specs::Effect::effect))]
pub fn encodings()
    ensures empty { ledger_bytes empty_ledger ≡ 0x00 ∷ 0x00 ∷ 0x00 ∷ 0x00
        ∷ 0x00 ∷ 0x00 ∷ 0x00 ∷ 0x01 ∷ 0x00 ∷ 0x00 ∷ 0x00 ∷ 0x00 ∷ 0x00 ∷ 0x00 ∷ 0x00 ∷ 0x00 ∷ [] }
    ensures one_application { ledger_bytes (ledger_after_calls (plain_creation approving approving
        no_entries no_entries ∷ [])) ≡ (0x00 ∷ 0x00 ∷ 0x00 ∷ 0x00 ∷ 0x00 ∷ 0x00 ∷ 0x00 ∷ 0x02 ∷ 0x00
        ∷ 0x00 ∷ 0x00 ∷ 0x01 ∷ 0x00 ∷ 0x00 ∷ 0x00 ∷ 0x00 ∷ 0x00 ∷ 0x00 ∷ 0x00 ∷ 0x01 ∷ (replicate 32
        0 ++ 0x00 ∷ 0x05 ∷ 0x02 ∷ 0x20 ∷ 0x01 ∷ 0x01 ∷ 0x22 ∷ 0x00 ∷ 0x05 ∷ 0x02 ∷ 0x20
        ∷ 0x01 ∷ 0x01 ∷ 0x22 ∷ 0x00 ∷ 0x00 ∷ 0x00 ∷ 0x00 ∷ 0x00 ∷ 0x00 ∷ 0x00 ∷ 0x00 ∷ 0x00 ∷ [])) }
    ensures assert { outcome_bytes (outcome.Faulted fault.Assert 7)
        ≡ 0x02 ∷ 0x18 ∷ 0x00 ∷ 0x07 ∷ [] }
    ensures cleared { outcome_bytes (outcome.ClearedAnyway (cause.Faulted fault.Err 11))
        ≡ 0x04 ∷ 0x02 ∷ 0x01 ∷ 0x00 ∷ 0x0b ∷ [] }
{}

/// What a debugger shows of a creation before its first step and at its end.
#[tactic(auto, unfolding(teal_table::specs::Table::row_of, teal_table::specs::Table::opcodes, teal_table::specs::Table::opcode_at, teal_table::specs::Fields::txn_field_at, teal_table::specs::Fields::global_field_at, avm_ops::specs::Effect::effect))]
pub fn views()
    ensures before { view_after empty_ledger (plain_creation approving approving
        no_entries no_entries) (zero_header profile.Two) 0 ≡ Some (record {
          place = 1;
          next = Runs
              (record { opcode = op.Intcblock; immediates = is.UintBlock (1 ∷ []) });
          stack = [];
          scratch
              = [];
          uint_constants = [];
          byte_constants = [];
          global_changes = [];
          local_changes = [];
        }) }
    ensures end { view_after empty_ledger
        (plain_creation approving approving no_entries no_entries) (zero_header profile.Two) 2
        ≡ Some (record {
          place = 5;
          next = AtEnd;
          stack = Uint 1 ∷ [];
          scratch = [];
          uint_constants = 1 ∷ [];
          byte_constants = [];
          global_changes = [];
          local_changes = [];
        }) }
    ensures counted { view_after empty_ledger (plain_creation counting counting
        one_uint_allowed no_entries) (zero_header profile.Two) 8 ≡ Some (record {
          place = 14;
          next = Runs (record { opcode = op.Intc0; immediates = is.Nothing });
          stack = [];
          scratch = [];
          uint_constants = 1 ∷ [];
          byte_constants = (0x6e ∷ []) ∷ [];
          global_changes
              = record { key = 0x6e ∷ []; now = Some (Uint 1) } ∷ [];
          local_changes = [];
        }) }
{}
