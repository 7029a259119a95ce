//! What a listing means, step by step.

ghost use Rattle.std.specs.Prelude.{◌≡◌, ◌↔◌, ◌<◌, ◌^◌, Ok, Err, List, ℕ, length, IsOk, IfErr};
ghost use Rattle.base64.specs.GeneralPurpose.{IsBytes};
ghost use Rattle.teal_table.specs.declared.shape.Version.{Version};
ghost use Rattle.teal_table.specs.Table.{name_of, row_of};
ghost use Rattle.teal_code.specs.declared.instr.Instr.{Instr};
ghost use Rattle.teal_code.specs.Grammar.{Encodes};
ghost use Rattle.teal_code.specs.Reader.{read_at};
ghost use Rattle.teal_code.specs.Encoding.{instr_encoding};
ghost use Rattle.teal_code.specs.Limits.{most_cost};
ghost use Rattle.teal_check.specs.declared.fault.CheckFault.TheVariants.{Cost};
ghost use Rattle.teal_check.specs.WellFormed.{WellFormed, checked};
ghost use Rattle.teal_dis.specs.Listing.{listing, operands};
ghost use Rattle.teal_source.specs.declared.fault.AsmFault.{AsmFault};
ghost use Rattle.teal_source.specs.declared.statement.Statement.{Statement};
ghost use Rattle.teal_source.specs.Commands.{command};
ghost use Rattle.teal_asm.specs.Meaning.{Meaning, meaning};
ghost use Rattle.teal_asm.specs.Program.{assembled};
ghost use Rattle.teal_laws.specs.AssembledListing.{AssemblesBack};
ghost use Rattle.teal_laws.specs.Listed.{IsListed, IsOfVersion, command_of};
ghost use Rattle.teal_laws.specs.ListedMeaning.{program_meaning};
ghost use Rattle.teal_laws.specs.ProgramRules.{IsProgram};
ghost use Rattle.teal_laws.specs.ShortestEncoding.{IsShortOffset, IsShortest};
ghost use Rattle.teal_laws.specs.TextCost.{meant_cost};
ghost use Rattle.teal_laws.specs.TextRelation.{IsWhatItSays};
ghost use Rattle.teal_laws.specs.TextRules.{AreSaidIn, FitTogether, IsFirstFault};

/// What `encode_into` writes of an instruction is its shortest encoding, where bytes encode it at all: so it is for one that
/// was read, and for one of the version whose numbers are in their range.
pub fn encodings_are_shortest()
    ensures encoded { (version : Version) (text : List ℕ) (i : Instr)
        → IsBytes text → Encodes version text i → IsShortest version i (instr_encoding i) }
    ensures read { (version : Version) (bytes : List ℕ) (place : ℕ) (i : Instr) (next : ℕ)
        → IsBytes bytes
        → read_at version bytes place ≡ Ok (i, next) → IsShortest version i (instr_encoding i) }
    ensures of_version { (version : Version) (i : Instr)
        → IsOfVersion version i → IsShortOffset i.immediates
        → length (instr_encoding i) < 2 ^ 64 → IsShortest version i (instr_encoding i) }
{}

/// Bytes are accepted exactly where the rules of programs hold of them and a program: the version's number in front, then
/// instructions of the grammar one behind another up to the end, with fields that their opcodes read, each branch over its
/// offset to the place of an instruction or to the end, and costs of at most 700 in 1024 bytes. There is one such program.
pub fn checked_programs_keep_the_rules()
    ensures checked { (bytes : List ℕ) (program : WellFormed)
        → (checked bytes ≡ Ok program) ↔ IsProgram bytes program }
    ensures accepted { (bytes : List ℕ)
        → IsOk (checked bytes) ↔ ((program : WellFormed) × IsProgram bytes program) }
    ensures one { (bytes : List ℕ) (program other : WellFormed)
        → IsProgram bytes program → IsProgram bytes other → program ≡ other }
{}

/// The words of an instruction's line ask for the instruction, whatever its shape and in both versions; those of a branch
/// ask for a branch to the label that is given.
pub fn instruction_words_read_back()
    ensures { (version : Version) (target : List ℕ) (i : Instr) → IsOfVersion version i
        → command version (name_of i.opcode) (operands (row_of i.opcode).immediates
        target i.immediates) ≡ Ok (command_of i.opcode target i.immediates) }
{}

/// The instructions of a checked program are of its version, with immediates in their range and fields that the version
/// has, and each branch leads to an instruction behind it or to the end.
pub fn programs_have_known_instructions()
    ensures { (bytes : List ℕ) (program : WellFormed)
        → IsBytes bytes → checked bytes ≡ Ok program → IsListed program }
{}

/// The listing of a checked program is a text that means the program: its version, its instructions, and for each branch
/// the same instruction as target.
pub fn listings_mean_their_programs()
    ensures { (bytes : List ℕ) (program : WellFormed) → IsBytes bytes
        → checked bytes ≡ Ok program → meaning (listing program) ≡ Ok (program_meaning program) }
{}

/// The listing of a checked program assembles, to a program that is checked, has the same version, instructions and
/// targets, costs the same, and is listed by the same text.
pub fn listings_assemble_back()
    ensures { (bytes : List ℕ) (program : WellFormed)
        → IsBytes bytes → checked bytes ≡ Ok program → AssemblesBack program }
{}

/// A text that assembles to a checked program means this program, and the program's listing means the same.
pub fn listings_keep_the_meaning()
    ensures program { (text bytes : List ℕ) (program : WellFormed) → IsBytes bytes → assembled text
        ≡ Ok bytes → checked bytes ≡ Ok program → meaning text ≡ Ok (program_meaning program) }
    ensures listing { (text bytes : List ℕ) (program : WellFormed) → IsBytes bytes → assembled text
        ≡ Ok bytes → checked bytes ≡ Ok program → meaning (listing program) ≡ meaning text }
{}

/// What the assembler gives of a text breaks no rule of programs but the one of the cost, and breaks that exactly where the
/// instructions of the text cost more than 700.
pub fn assembled_programs_break_no_other_rule()
    ensures only_cost { (text bytes : List ℕ)
        → IsBytes bytes → assembled text ≡ Ok bytes → IfErr (checked bytes) (λ f. f ≡ Cost) }
    ensures dear { (text bytes : List ℕ) (m : Meaning)
        → IsBytes bytes → assembled text ≡ Ok bytes → meaning text ≡ Ok m
        → (checked bytes ≡ Err Cost) ↔ (most_cost < meant_cost m.instructions) }
{}

/// A text that has a meaning means what its commands say, each by itself: constants are gathered once each, in the order
/// of first use; a branch leads to the instruction that its label stands before, which comes behind it; and there is an
/// instruction for each command, in order.
pub fn texts_mean_what_they_say()
    ensures { (text : List ℕ) (m : Meaning)
        → meaning text ≡ Ok m → IsWhatItSays text m.version m.instructions }
{}

/// A text has a meaning exactly where it breaks no rule: each of its lines is read by itself, behind a pragma that names the
/// version; each label is defined once, and the label of each branch behind it; no explicit block stands beside constants of
/// its kind; and at most 256 different constants of a kind are named. Any other text has one first fault: of its tokens, of
/// the pragma, of the first line that can't be read or breaks a rule with those above it, or else of the first branch whose
/// label isn't behind it.
pub fn meant_texts_keep_the_rules()
    ensures meant { (text : List ℕ) → IsOk (meaning text)
        ↔ ((version : Version) × (ss : List Statement)
        × AreSaidIn text version ss × FitTogether ss) }
    ensures fault { (text : List ℕ) (f : AsmFault)
        → (meaning text ≡ Err f) ↔ IsFirstFault text f }
{}
