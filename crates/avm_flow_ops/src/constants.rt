//! The instructions that push a constant of the block in force.

ghost use Rattle.std.specs.Prelude.{◌≡◌, IfSome, Some};
ghost use Rattle.avm_ops.specs.Objects.{Executes};
ghost use Rattle.avm_flow_ops.specs.Families.{intc_opcode, intc_index, bytec_opcode, bytec_index};

use avm_cpu::{Cpu, Flow};
use avm_items::Env;
use avm_ops::immediates::index_of;
use avm_ops::{Control, Executed, Op};
use std::alloc::Global;
use teal_code::{Immediates, Instr};
use teal_table::Opcode;
use teal_value::{ByteString, Fault, Value};

/// Pushes a number of the block in force.
#[derive(Clone, Copy, Debug, PartialEq, Eq)]
pub enum Intc {
    /// The one whose number is the immediate.
    Numbered,
    Zero,
    One,
    Two,
    Three,
}

/// Pushes a byte string of the block in force.
#[derive(Clone, Copy, Debug, PartialEq, Eq)]
pub enum Bytec {
    /// The one whose number is the immediate.
    Numbered,
    Zero,
    One,
    Two,
    Three,
}

impl Intc {
    /// The instruction of an opcode.
    pub fn of(opcode: Opcode) -> Option<Intc>
        ensures some { IfSome result (λ row. intc_opcode row ≡ opcode) }
        ensures all { (row : _) → intc_opcode row ≡ opcode → result ≡ Some row }
    {
        match opcode {
            Opcode::Intc => Some(Intc::Numbered),
            Opcode::Intc0 => Some(Intc::Zero),
            Opcode::Intc1 => Some(Intc::One),
            Opcode::Intc2 => Some(Intc::Two),
            Opcode::Intc3 => Some(Intc::Three),
            _ => None,
        }
    }

    fn opcode(self) -> Opcode
        ensures { result ≡ intc_opcode self }
    {
        match self {
            Intc::Numbered => Opcode::Intc,
            Intc::Zero => Opcode::Intc0,
            Intc::One => Opcode::Intc1,
            Intc::Two => Opcode::Intc2,
            Intc::Three => Opcode::Intc3,
        }
    }

    fn index(self, immediates: &Immediates) -> u8
        ensures { result ≡ intc_index self immediates.now }
    {
        match self {
            Intc::Numbered => index_of(immediates),
            Intc::Zero => 0,
            Intc::One => 1,
            Intc::Two => 2,
            Intc::Three => 3,
        }
    }

    #[tactic(auto, unfolding(avm_ops::specs::Effect::effect))]
    #[inline(always)]
    fn execute(&self, _alloc: Global, instr: &Instr, cpu: &mut Cpu, _env: &mut Env) -> Executed
        ensures { Executes (intc_opcode self.now)
            instr.now.immediates cpu.old _env.old result cpu.new _env.new }
    {
        let index = self.index(&instr.immediates);
        let number = cpu.uint_constant(index).ok_or(Fault::NoConstant)?;
        cpu.push_uint(number)?;
        Ok(Flow::Next)
    }
}

impl Op for Intc {
    ghost opcode = { intc_opcode };

    fn code(&self) -> u8 {
        self.opcode().code()
    }

    fn exec(&self, alloc: Global, instr: &Instr, cpu: &mut Cpu, env: &mut Env) -> Executed {
        self.execute(alloc, instr, cpu, env)
    }

    fn carry_out(&self, alloc: Global, instr: &Instr, cpu: &mut Cpu, env: &mut Env) -> Control {
        Control::of(alloc, self.execute(alloc, instr, cpu, env))
    }
}

impl Bytec {
    /// The instruction of an opcode.
    pub fn of(opcode: Opcode) -> Option<Bytec>
        ensures some { IfSome result (λ row. bytec_opcode row ≡ opcode) }
        ensures all { (row : _) → bytec_opcode row ≡ opcode → result ≡ Some row }
    {
        match opcode {
            Opcode::Bytec => Some(Bytec::Numbered),
            Opcode::Bytec0 => Some(Bytec::Zero),
            Opcode::Bytec1 => Some(Bytec::One),
            Opcode::Bytec2 => Some(Bytec::Two),
            Opcode::Bytec3 => Some(Bytec::Three),
            _ => None,
        }
    }

    fn opcode(self) -> Opcode
        ensures { result ≡ bytec_opcode self }
    {
        match self {
            Bytec::Numbered => Opcode::Bytec,
            Bytec::Zero => Opcode::Bytec0,
            Bytec::One => Opcode::Bytec1,
            Bytec::Two => Opcode::Bytec2,
            Bytec::Three => Opcode::Bytec3,
        }
    }

    fn index(self, immediates: &Immediates) -> u8
        ensures { result ≡ bytec_index self immediates.now }
    {
        match self {
            Bytec::Numbered => index_of(immediates),
            Bytec::Zero => 0,
            Bytec::One => 1,
            Bytec::Two => 2,
            Bytec::Three => 3,
        }
    }

    #[tactic(auto, unfolding(avm_ops::specs::Effect::effect))]
    #[inline(always)]
    fn execute(&self, alloc: Global, instr: &Instr, cpu: &mut Cpu, _env: &mut Env) -> Executed
        ensures { Executes (bytec_opcode self.now)
            instr.now.immediates cpu.old _env.old result cpu.new _env.new }
    {
        let index = self.index(&instr.immediates);
        let bytes = cpu.byte_constant(index).ok_or(Fault::NoConstant)?;
        let copy = ByteString::from_slice(alloc, bytes)?;
        cpu.push(Value::Bytes(copy))?;
        Ok(Flow::Next)
    }
}

impl Op for Bytec {
    ghost opcode = { bytec_opcode };

    fn code(&self) -> u8 {
        self.opcode().code()
    }

    fn exec(&self, alloc: Global, instr: &Instr, cpu: &mut Cpu, env: &mut Env) -> Executed {
        self.execute(alloc, instr, cpu, env)
    }

    fn carry_out(&self, alloc: Global, instr: &Instr, cpu: &mut Cpu, env: &mut Env) -> Control {
        Control::of(alloc, self.execute(alloc, instr, cpu, env))
    }
}
