//! The laws that join the checker, the disassembler and the assembler: what the listing of a program means. Each is the
//! contract of a function without work.
//!
//! `specs/Listed.antt` says what a program's instructions have in common, and `specs/ListedMeaning.antt` what a program
//! means, in the words in which `teal_asm` says what a text means. `specs/AssembledListing.antt` says what it is for a
//! listing to assemble back, `specs/ShortestEncoding.antt` for an encoding to be the shortest.
//! `specs/ProgramRules.antt` has the rules of programs as a relation, `specs/TextRelation.antt` what a text means as one, and
//! `specs/TextRules.antt` which texts have a meaning, and what the first fault of the others is.
#![tactic(auto)]

mod laws;

pub use laws::{
    assembled_programs_break_no_other_rule, checked_programs_keep_the_rules,
    encodings_are_shortest, instruction_words_read_back, listings_assemble_back,
    listings_keep_the_meaning, listings_mean_their_programs, meant_texts_keep_the_rules,
    programs_have_known_instructions, texts_mean_what_they_say,
};
