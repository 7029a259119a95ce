//! What a run shows of its program.

ghost use Rattle.std.specs.Prelude.{◌≡◌, Some};
ghost use Rattle.std.specs.Option.{option_copied};
ghost use Rattle.avm_run.specs.Progress.{Follows};
ghost use Rattle.avm_run.specs.Showing.{ShowsPath, ShowsPhase, sight_of};
ghost use Rattle.avm_run.specs.Standing.{StandsIn};

use crate::call_run::Live;
use crate::phase::Phase;
use crate::running::Running;
use avm_cpu::Cpu;
use avm_items::ItemMap;
use teal_check::Program;
use teal_code::Instr;

/// Where the program of a run stands: before the instruction that comes next, or at the program's end.
#[derive(Clone, Copy)]
pub struct Shown<'a> {
    /// The id of the application that runs.
    pub application: u64,
    /// The program.
    pub program: &'a Program,
    /// The place of the instruction that comes next, or the program's length at its end.
    pub place: u16,
    /// That instruction, if one is left.
    pub instruction: Option<&'a Instr>,
    /// The stack, the scratch space and the constants in force. Its own place is that of the instruction before.
    pub machine: &'a Cpu,
    /// What the call has written so far.
    pub writes: &'a ItemMap,
}

impl Running {
    /// Where the program stands.
    pub(crate) fn shown(&self) -> Shown<'_>
        requires stands { StandsIn self.now }
        ensures { ShowsPath self.now.env.call self.now.env.header self.now.env.reads self.now.steps
            (sight_of result) }
    {
        match self.program.placed(self.number) {
            Some(placed) => self.shown_at(placed.place, Some(&placed.instr)),
            None => self.shown_at(self.program.bytes().len() as u16, None),
        }
    }

    fn shown_at<'a>(&'a self, place: u16, instruction: Option<&'a Instr>) -> Shown<'a>
        ensures { sight_of result ≡ record {
          application = self.now.env.current;
          program = self.now.program;
          place = place;
          instruction = option_copied
              instruction.entry;
          machine = self.now.cpu;
          writes = self.now.env.writes;
        } }
    {
        Shown {
            application: self.env.current(),
            program: &self.program,
            place,
            instruction,
            machine: &self.cpu,
            writes: self.env.writes(),
        }
    }
}

impl Live {
    /// Where the program stands, if it has begun.
    pub(crate) fn shown(&self) -> Option<Shown<'_>>
        requires follows { Follows self.now.call self.now.header self.now.phase }
        ensures { ShowsPhase self.now.call self.now.header self.now.phase result }
    {
        match &self.phase {
            Phase::Tests(_) => None,
            Phase::Runs(running) => Some(running.shown()),
        }
    }
}
