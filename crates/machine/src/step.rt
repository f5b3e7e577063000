// One step: fetch and judge the instruction at pc, then apply the judgement to the state.
ghost use Rattle.std.specs.Prelude.{◌≡◌};
ghost use Rattle.machine.specs.Causes.{external_interrupt};
ghost use Rattle.machine.specs.Classes.{serves};
ghost use Rattle.machine.specs.Laws.{StepLaw};
ghost use Rattle.machine.specs.Step.{judged_outcome, judged, judgement_of, entered, returned, written, after_line, retired, applied, step};

use crate::cause::Cause;
use crate::classes::Classes;
use crate::decode::{Decoded, decode};
use crate::judgement::Judgement;
use crate::record::{Record, Retirement};
use crate::state::{Machine, TrapState};
use execute::outcome;
use isa::outcome::Outcome;

const EXTERNAL_INTERRUPT: u32 = 0x8000_000b;

// What an instruction's outcome means for its destination register.
pub fn judge_outcome(rd: u8, outcome: Option<Outcome>) -> Judgement
    ensures { result ≡ judged_outcome rd outcome }
{
    match outcome {
        Some(Outcome::Done { value, next }) => Judgement::Write { rd, value, next },
        Some(Outcome::Misaligned) => Judgement::Trap(Cause::MisalignedTarget),
        None => Judgement::Trap(Cause::IllegalInstruction),
    }
}

impl Machine {
    fn judge(&self, decoded: Decoded) -> Judgement
        ensures { result ≡ judged decoded self.now }
    {
        match decoded {
            Decoded::Trap(cause) => Judgement::Trap(cause),
            Decoded::Return => Judgement::Return,
            Decoded::Work(_, instruction) => {
                let a = self.operand(instruction.rs1);
                let b = self.operand(instruction.rs2);
                judge_outcome(instruction.rd, outcome(instruction, self.pc, a, b))
            }
        }
    }

    // The cause by its number: that of an interrupt is none of `Cause`'s.
    fn enter_handler(&mut self, back: u32, cause: u32)
        ensures { self.new ≡ entered back cause self.old }
    {
        self.pc = self.trap.vector;
        self.trap = TrapState {
            mepc: back,
            mcause: cause,
            mie: false,
            mpie: self.trap.mie,
            ..self.trap
        };
    }

    fn return_from_handler(&mut self)
        ensures { self.new ≡ returned self.old }
    {
        self.pc = self.trap.mepc;
        self.trap.mie = self.trap.mpie;
        self.trap.mpie = true;
    }

    fn write_result(&mut self, rd: u8, value: u32, next: u32)
        ensures { self.new ≡ written rd value next self.old }
    {
        self.set_register(rd, value);
        self.pc = next;
    }

    // The instruction at pc did not trap: an interrupt may follow it.
    fn settle(&mut self, line: bool) -> Retirement
        ensures state { self.new ≡ after_line line self.old }
        ensures answer { result ≡ retired line self.old }
    {
        let interrupted = line && self.trap.mie;
        if !interrupted {
            return Retirement::Plain;
        }
        self.enter_handler(self.pc, EXTERNAL_INTERRUPT);
        Retirement::Interrupted
    }

    pub fn apply(&mut self, line: bool, word: u32, judgement: Judgement) -> Record
        ensures state { self.new ≡ (applied line word judgement self.old).0 }
        ensures answer { result ≡ (applied line word judgement self.old).1 }
    {
        let pc = self.pc;
        let (outcome, destination, value) = match judgement {
            Judgement::Trap(cause) => {
                let value = cause.number();
                self.enter_handler(pc, value);
                (Retirement::Trapped, 0, value)
            }
            Judgement::Return => {
                self.return_from_handler();
                (self.settle(line), 0, 0)
            }
            Judgement::Write { rd, value, next } => {
                self.write_result(rd, value, next);
                let written = if rd == 0 { 0 } else { value };
                (self.settle(line), rd, written)
            }
        };
        Record {
            pc,
            word,
            outcome,
            destination,
            value,
            next: self.pc,
        }
    }

    pub fn step(&mut self, served: Classes, line: bool) -> Record
        ensures state { self.new ≡ (step (serves served) line self.old).0 }
        ensures answer { result ≡ (step (serves served) line self.old).1 }
        ensures law { StepLaw (serves served) self.old result self.new }
    {
        let word = self.word_at(self.pc);
        let judgement = self.judge(decode(served, word));
        self.apply(line, word.unwrap_or(0), judgement)
    }
}
