//! Instructions as the bytes of a program.

ghost use Rattle.std.specs.Prelude.{◌≡◌, ◌+◌, ◌-◌, ◌^◌, ◌<◌, ◌≤◌, ◌∷◌, ◌++◌, ℕ, min, length, slice_index_or, IfOk, OnOk, MatchOption};
ghost use Rattle.teal_value.specs.Answer.{Gives};
ghost use Rattle.teal_code.specs.Encoding.{instr_encoding};
ghost use Rattle.teal_code.specs.declared.instr.Immediates.TheVariants as is;
ghost use Rattle.teal_asm.specs.Program.{size, total_size, encoding, version_byte, program, short_program};
ghost use Rattle.teal_asm.specs.Instructions.{meant, all_meant, ArePlaces};

use std::alloc::{AllocError, Global};
use teal_code::{Immediates, Instr, encode_into};
use teal_source::{AsmError, AsmFault, AsmFaultKind};
use teal_table::{Opcode, Version};
use teal_value::Failure;

/// An instruction as a text means it.
#[derive(Debug, Drop)]
pub(crate) enum Instruction {
    Straight(Instr),
    /// A branch to the instruction of a number, or to the end, whose number is their count.
    Branch(Opcode, usize),
}

/// The most bytes that a program may have behind its version.
pub(crate) const MOST: usize = 1023;

/// The program of instructions, unless it has more than 1024 bytes.
#[tactic(auto, unfolding(crate::specs::Program::program))]
pub(crate) fn short_program(
    alloc: Global,
    last_line: usize,
    version: Version,
    instructions: &[Instruction],
) -> Result<Vec<u8>, AsmError>
    ensures { Gives (λ code. code.items) result (short_program last_line
        (program (record { version = version; instructions = all_meant instructions.now }))) }
{
    match places_of(alloc, instructions)? {
        Some(places) => Ok(encoded(alloc, version, instructions, &places)?),
        None => Err(Failure::Fault(AsmFault {
            line: last_line,
            kind: AsmFaultKind::TooLong,
        })),
    }
}

// The place of each instruction, counted from behind the version, and of the end; none where it is above MOST.
fn places_of(alloc: Global, instructions: &[Instruction]) -> Result<Option<Vec<usize>>, AllocError>
    ensures { IfOk result (λ places. MatchOption places (MOST < total_size
        (all_meant instructions.now)) (λ v. ArePlaces (all_meant instructions.now) v.items)) }
{
    let mut places = Vec::new(alloc);
    let mut bytes = Vec::new(alloc);
    let mut place = 0;
    places.push(place)?;
    for instruction in instructions {
        place += size_of(instruction, &mut bytes)?;
        if place > MOST {
            return Ok(None);
        }
        places.push(place)?;
    }
    Ok(Some(places))
}

// How many bytes an instruction takes.
fn size_of(instruction: &Instruction, bytes: &mut Vec<u8>) -> Result<usize, AllocError>
    ensures size { IfOk result (λ n. n ≡ size (meant instruction.now)) }
    ensures small { IfOk result (λ n. n < 2 ^ 63) }
{
    match instruction {
        Instruction::Straight(instr) => {
            bytes.clear();
            encode_into(instr, bytes)?;
            Ok(bytes.len())
        }
        Instruction::Branch(_, _) => Ok(3),
    }
}

fn encoded(
    alloc: Global,
    version: Version,
    instructions: &[Instruction],
    places: &[usize],
) -> Result<Vec<u8>, AllocError>
    requires { ArePlaces (all_meant instructions.now) places.now }
    ensures { IfOk result
        (λ code. code.items ≡ version_byte version ∷ encoding 0 (all_meant instructions.now)) }
{
    let mut code = Vec::new(alloc);
    code.push(version_byte(version))?;
    for (number, instruction) in instructions.iter().enumerate() {
        match instruction {
            Instruction::Straight(instr) => encode_into(instr, &mut code)?,
            Instruction::Branch(opcode, target) => {
                let offset = offset_to(*target, number, places);
                push_branch(*opcode, offset, &mut code)?;
            }
        }
    }
    Ok(code)
}

// How far a branch of a number leads: over the instructions between it and its target.
fn offset_to(target: usize, number: usize, places: &[usize]) -> u16
    requires inside { number + 1 < length places.now }
    requires small { (k : ℕ) → slice_index_or places.now k 0 ≤ 1023 }
    ensures { result ≡ slice_index_or places.now (min target (length places.now - 1)) 0
        - slice_index_or places.now (number + 1) 0 }
{
    let last = places.len() - 1;
    places[target.min(last)].saturating_sub(places[number + 1]) as u16
}

fn push_branch(opcode: Opcode, offset: u16, code: &mut Vec<u8>) -> Result<(), AllocError>
    ensures { OnOk result (code.new.items ≡ code.old.items
        ++ instr_encoding (record { opcode = opcode; immediates = is.Offset offset })) }
{
    let instr = Instr {
        opcode,
        immediates: Immediates::Offset(offset),
    };
    encode_into(&instr, code)
}

fn version_byte(version: Version) -> u8
    ensures { result ≡ version_byte version }
{
    match version {
        Version::Two => 2,
        Version::Three => 3,
    }
}
