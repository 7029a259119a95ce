//! What holds of the definitions, each law the contract of a function without work.

ghost use Rattle.std.specs.Prelude.{◌≡◌, ℕ, List, ◌∷◌, ◌++◌, [], Ok, Err};
ghost use Rattle.teal_table.specs.declared.opcode.Opcode.TheVariants as op;
ghost use Rattle.teal_table.specs.declared.shape.Version.{Version};
ghost use Rattle.teal_table.specs.declared.shape.Version.TheVariants.{Two};
ghost use Rattle.teal_code.specs.Grammar.{Encodes, Reads};
ghost use Rattle.teal_code.specs.Reader.{read_at};
ghost use Rattle.teal_code.specs.declared.instr.Instr.{Instr};
ghost use Rattle.teal_code.specs.declared.instr.Immediates.TheVariants as is;
ghost use Rattle.teal_code.specs.declared.decode.CodeFault.TheVariants.{UnknownOp, Truncated, BadVaruint};

/// No encoding of an instruction begins another.
pub fn no_encoding_begins_another()
    ensures { (version : Version) (a b x y : List ℕ) (i j : Instr)
        → Encodes version a i → Encodes version b j → a ++ x ≡ b ++ y → (a ≡ b) × (i ≡ j) }
{}

/// Reading is what the grammar says.
pub fn reading_is_the_grammar()
    ensures read { (version : Version) (bytes : List ℕ) (place : ℕ) (i : Instr) (next : ℕ)
        → read_at version bytes place ≡ Ok (i, next) → Reads version bytes place i next }
    ensures reads { (version : Version) (bytes : List ℕ) (place : ℕ) (i : Instr) (next : ℕ)
        → Reads version bytes place i next → read_at version bytes place ≡ Ok (i, next) }
{}

/// Worked programs, read at a place.
#[tactic(auto, unfolding(teal_table::specs::Table::row_of, teal_table::specs::Table::opcodes, teal_table::specs::Table::opcode_at))]
pub fn worked_reads()
    ensures count_beyond_the_end { read_at Two (0x02 ∷ 0x20 ∷ 0x80 ∷ 0x01 ∷ 0x01 ∷ 0x22 ∷ []) 1
        ≡ Err Truncated }
    ensures longer_encoding { read_at Two (0x02 ∷ 0x20 ∷ 0x81 ∷ 0x00 ∷ 0x01 ∷ 0x22 ∷ []) 1
        ≡ Ok (record { opcode = op.Intcblock; immediates = is.UintBlock (1 ∷ []) }, 5) }
    ensures short_constant { read_at Two (0x02 ∷ 0x20 ∷ 0x81 ∷ 0x00 ∷ 0x01 ∷ 0x22 ∷ []) 5
        ≡ Ok (record { opcode = op.Intc0; immediates = is.Nothing }, 6) }
    ensures unknown { read_at Two (0x02 ∷ 0xff ∷ []) 1 ≡ Err UnknownOp }
    ensures later_version { read_at Two (0x02 ∷ 0x44 ∷ []) 1 ≡ Err UnknownOp }
    ensures no_bytes { read_at Two (0x02 ∷ 0x20 ∷ []) 1 ≡ Err Truncated }
    ensures no_constant { read_at Two (0x02 ∷ 0x20 ∷ 0x01 ∷ []) 1 ≡ Err Truncated }
    ensures tenth_byte { read_at Two (0x02 ∷ 0x20 ∷ 0x80
        ∷ 0x80 ∷ 0x80 ∷ 0x80 ∷ 0x80 ∷ 0x80 ∷ 0x80 ∷ 0x80 ∷ 0x80 ∷ 0x02 ∷ []) 1 ≡ Err BadVaruint }
    ensures largest_count { read_at Two (0x02 ∷ 0x20 ∷ 0xff
        ∷ 0xff ∷ 0xff ∷ 0xff ∷ 0xff ∷ 0xff ∷ 0xff ∷ 0xff ∷ 0xff ∷ 0x01 ∷ []) 1 ≡ Err Truncated }
    ensures largest_length { read_at Two (0x02 ∷ 0x26 ∷ 0x01 ∷ 0xff
        ∷ 0xff ∷ 0xff ∷ 0xff ∷ 0xff ∷ 0xff ∷ 0xff ∷ 0xff ∷ 0xff ∷ 0x01 ∷ []) 1 ≡ Err Truncated }
    ensures branch { read_at Two (0x02 ∷ 0x42 ∷ 0x01 ∷ 0x02 ∷ []) 1
        ≡ Ok (record { opcode = op.B; immediates = is.Offset 258 }, 4) }
{}
