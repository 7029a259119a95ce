//! Statements as instructions: the third round of faults, but for the length.

ghost use Rattle.std.specs.Prelude.{◌≡◌, ◌+◌, ◌<◌, ◌++◌, List, length, nat_eq, IfOk};
ghost use Rattle.std.specs.List.{position_or_len};
ghost use Rattle.teal_value.specs.Answer.{Gives, Leaves};
ghost use Rattle.teal_value.specs.declared.failure.Failure.TheVariants.{Fault};
ghost use Rattle.teal_asm.specs.Meaning.{Straight, all_instructions, branch, byte_block_in_front, gathered_blocks, instruction, read_byte_constant, read_uint_constant, uint_block_in_front};
ghost use Rattle.std.specs.Map.{lookup};
ghost use Rattle.std.specs.Option.{option_map};
ghost use Rattle.std.specs.Str.{bytes_eq};
ghost use Rattle.teal_asm.specs.Bodies.{IsBody};
ghost use Rattle.teal_asm.specs.Constants.{AreConstants, HasConstant, HasConstants, HasItsConstant, IsShort};
ghost use Rattle.teal_asm.specs.Instructions.{all_meant, meant, with_instruction};
ghost use Rattle.teal_source.specs.declared.statement.Statement.{Statement as AnyStatement};

use crate::body::Body;
use crate::emit::Instruction;
use crate::gathered::{Labels, Strings};
use indexmap::IndexSet;
use std::alloc::{AllocError, Global};
use teal_code::{Immediates, Instr};
use teal_source::{AsmError, AsmFault, AsmFaultKind, Command, Statement};
use teal_table::Opcode;
use teal_value::{ByteStrings, Failure, Uints};

/// The instructions of a body, with the blocks of its gathered constants in front.
pub(crate) fn instructions_of(alloc: Global, body: Body) -> Result<Vec<Instruction>, AsmError>
    requires { IsBody body }
    ensures { Gives (λ v. all_meant v.items) result (all_instructions body.statements.items) }
{
    let blocks = blocks_of(alloc, &body.uints, &body.strings)?;
    instructions_behind(blocks, body)
}

// The instructions of a body, behind the blocks of its gathered constants.
fn instructions_behind(blocks: Vec<Instruction>, body: Body) -> Result<Vec<Instruction>, AsmError>
    requires body { IsBody body }
    requires blocks { all_meant blocks.items ≡ gathered_blocks body.statements.items }
    ensures { Gives (λ v. all_meant v.items) result (all_instructions body.statements.items) }
{
    let (constants, statements) = body.into_parts(blocks.len());
    resolved(&constants, blocks, statements)
}

/// What an instruction is looked up in.
#[derive(Drop)]
pub(crate) struct Constants {
    pub uints: IndexSet<u64>,
    pub strings: Strings,
    pub labels: Labels,
    /// How many blocks stand in front.
    pub blocks: usize,
}

// The instructions of the statements, behind the blocks.
fn resolved(
    constants: &Constants,
    blocks: Vec<Instruction>,
    statements: Vec<Statement>,
) -> Result<Vec<Instruction>, AsmError>
    requires constants { AreConstants constants.now statements.items }
    requires short { IsShort constants.now }
    requires known { HasConstants constants.now.uints.keys constants.now.strings statements.items }
    requires blocks { all_meant blocks.items ≡ gathered_blocks statements.items }
    ensures { Gives (λ v. all_meant v.items) result (all_instructions statements.items) }
{
    let mut instructions = blocks;
    for statement in statements {
        add_instruction(constants, statement, &mut instructions)?;
    }
    Ok(instructions)
}

// Adds the instruction of a statement, if it has a command.
fn add_instruction(
    constants: &Constants,
    statement: Statement,
    instructions: &mut Vec<Instruction>,
) -> Result<(), AsmError>
    requires known { HasItsConstant constants.now.uints.keys
        constants.now.strings statement.command }
    requires short { IsShort constants.now }
    ensures { (all : List AnyStatement)
        → AreConstants constants.now all → Leaves result (all_meant instructions.new.items)
        (with_instruction all (all_meant instructions.old.items) statement) }
{
    let Statement {
        line,
        label,
        command,
    } = statement;
    drop(label);
    if let Some(command) = command {
        let instruction = instruction_of(constants, instructions.len(), line, command)?;
        instructions.push(instruction)?;
    }
    Ok(())
}

fn instruction_of(
    constants: &Constants,
    number: usize,
    line: usize,
    command: Command,
) -> Result<Instruction, AsmError>
    requires known { HasConstant constants.now.uints.keys constants.now.strings command }
    requires short { IsShort constants.now }
    ensures { (all : List AnyStatement) → AreConstants constants.now all
        → Gives meant result (instruction all number line command) }
{
    match command {
        Command::Int(value) => Ok(uint_constant(index_of(&constants.uints, value))),
        Command::Byte(bytes) => Ok(byte_constant(constants.strings.index_of(bytes.as_slice()))),
        Command::Jump(opcode, name) => {
            let target = constants.target_of(name.as_slice());
            branch(line, opcode, number, target)
        }
        Command::Plain(opcode, immediates) => Ok(straight(opcode, immediates)),
    }
}

impl Constants {
    ghost use Rattle.teal_asm.specs.Constants.{IsShort};

    // The number of the instruction that a label stands before.
    fn target_of(&self, name: &[u8]) -> Option<usize>
        requires { IsShort self.now }
        ensures { result
            ≡ option_map (λ n. self.now.blocks + n) (lookup (bytes_eq name.now) self.now.labels) }
    {
        match self.labels.number_of(name) {
            Some(number) => Some(self.blocks + number),
            None => None,
        }
    }
}

// Where a number stands among the gathered ones, or their count where it doesn't.
fn index_of(uints: &IndexSet<u64>, value: u64) -> usize
    ensures { result ≡ position_or_len (nat_eq value) uints.now.keys }
{
    match uints.get_index_of(&value) {
        Some(index) => index,
        None => uints.len(),
    }
}

// A block of each kind of constants that are gathered.
fn blocks_of(
    alloc: Global,
    uints: &IndexSet<u64>,
    strings: &Strings,
) -> Result<Vec<Instruction>, AllocError>
    ensures { IfOk result (λ v.
        all_meant v.items ≡ uint_block_in_front uints.now.keys ++ byte_block_in_front strings.now) }
{
    let mut blocks = Vec::new(alloc);
    if uints.len() > 0 {
        let numbers = Vec::from_slice(alloc, uints.as_slice())?;
        let immediates = Immediates::UintBlock(Uints::from_vec(numbers));
        blocks.push(straight(Opcode::Intcblock, immediates))?;
    }
    if strings.len() > 0 {
        let bytes = strings.to_vec(alloc)?;
        let immediates = Immediates::ByteBlock(ByteStrings::from_vec(bytes));
        blocks.push(straight(Opcode::Bytecblock, immediates))?;
    }
    Ok(blocks)
}

fn uint_constant(index: usize) -> Instruction
    requires { index < 256 }
    ensures { meant result ≡ read_uint_constant index }
{
    match index {
        0 => straight(Opcode::Intc0, Immediates::Nothing),
        1 => straight(Opcode::Intc1, Immediates::Nothing),
        2 => straight(Opcode::Intc2, Immediates::Nothing),
        3 => straight(Opcode::Intc3, Immediates::Nothing),
        _ => straight(Opcode::Intc, Immediates::Index(index as u8)),
    }
}

fn byte_constant(index: usize) -> Instruction
    requires { index < 256 }
    ensures { meant result ≡ read_byte_constant index }
{
    match index {
        0 => straight(Opcode::Bytec0, Immediates::Nothing),
        1 => straight(Opcode::Bytec1, Immediates::Nothing),
        2 => straight(Opcode::Bytec2, Immediates::Nothing),
        3 => straight(Opcode::Bytec3, Immediates::Nothing),
        _ => straight(Opcode::Bytec, Immediates::Index(index as u8)),
    }
}

fn straight(opcode: Opcode, immediates: Immediates) -> Instruction
    ensures { meant result ≡ Straight opcode immediates }
{
    Instruction::Straight(Instr { opcode, immediates })
}

// A branch of a number, in a line, to the number of its label.
fn branch(
    line: usize,
    opcode: Opcode,
    number: usize,
    target: Option<usize>,
) -> Result<Instruction, AsmError>
    ensures { Gives meant result (branch line opcode number target) }
{
    match target {
        None => Err(at_line(line, AsmFaultKind::LabelMissing)),
        Some(target) if target <= number => Err(at_line(line, AsmFaultKind::LabelBehind)),
        Some(target) => Ok(Instruction::Branch(opcode, target)),
    }
}

fn at_line(line: usize, kind: AsmFaultKind) -> AsmError
    ensures { result ≡ Fault (record { line = line; kind = kind }) }
{
    Failure::Fault(AsmFault { line, kind })
}
