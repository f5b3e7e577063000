// What a classed instruction works out from its address and the values of its source registers.
#![tactic(auto)]

ghost use Rattle.std.specs.Prelude.{◌≡◌, ◌*◌, ◌/◌};
ghost use Rattle.execute.specs.Outcomes.{right_signed, less, quotient, remainder, value_of, departs, target_of, landed, worked_out, outcome_of};

use isa::instruction::Instruction;
use isa::operation::Operation;
use isa::outcome::Outcome;

fn shift_right_signed(x: u32, y: u32) -> u32
    ensures { result ≡ right_signed x y }
{
    x.cast_signed().wrapping_shr(y).cast_unsigned()
}

fn less(x: u32, y: u32) -> bool
    ensures { result ≡ less x y }
{
    x.cast_signed() < y.cast_signed()
}

// Not by `checked_div`, which refuses -2^31 by -1 too; nor the remainder by `checked_rem`.
fn quotient(x: u32, y: u32) -> u32
    ensures { result ≡ quotient x y }
{
    if y == 0 {
        u32::MAX
    } else {
        x.cast_signed()
            .wrapping_div(y.cast_signed())
            .cast_unsigned()
    }
}

fn remainder(x: u32, y: u32) -> u32
    ensures { result ≡ remainder x y }
{
    if y == 0 {
        x
    } else {
        x.cast_signed()
            .wrapping_rem(y.cast_signed())
            .cast_unsigned()
    }
}

fn lowest_bit_cleared(x: u32) -> u32
    ensures { result ≡ x / 2 * 2 }
{
    x & !1
}

fn land(value: u32, target: u32) -> Outcome
    ensures { result ≡ landed value target }
{
    if target % 4 == 0 {
        Outcome::Done {
            value,
            next: target,
        }
    } else {
        Outcome::Misaligned
    }
}

// An instruction with its address and the values of its source registers.
#[derive(Clone, Copy)]
struct Work {
    instruction: Instruction,
    pc: u32,
    a: u32,
    b: u32,
}

impl Work {
    fn value(self) -> u32
        ensures { result ≡ value_of self.instruction.operation self.instruction.immediate self.pc self.a self.b }
    {
        let Work {
            instruction,
            pc,
            a,
            b,
        } = self;
        let bits = instruction.immediate.cast_unsigned();
        match instruction.operation {
            Operation::Lui => bits << 12,
            Operation::Auipc => pc.wrapping_add(bits << 12),
            Operation::Jal | Operation::Jalr => pc.wrapping_add(4),
            Operation::Addi => a.wrapping_add(bits),
            Operation::Slti => u32::from(less(a, bits)),
            Operation::Sltiu => u32::from(a < bits),
            Operation::Xori => a ^ bits,
            Operation::Ori => a | bits,
            Operation::Andi => a & bits,
            Operation::Slli => a.wrapping_shl(bits),
            Operation::Srli => a.wrapping_shr(bits),
            Operation::Srai => shift_right_signed(a, bits),
            Operation::Add => a.wrapping_add(b),
            Operation::Sub => a.wrapping_sub(b),
            Operation::Sll => a.wrapping_shl(b),
            Operation::Slt => u32::from(less(a, b)),
            Operation::Sltu => u32::from(a < b),
            Operation::Xor => a ^ b,
            Operation::Srl => a.wrapping_shr(b),
            Operation::Sra => shift_right_signed(a, b),
            Operation::Or => a | b,
            Operation::And => a & b,
            Operation::Mul => a.wrapping_mul(b),
            Operation::Div => quotient(a, b),
            Operation::Divu => a.checked_div(b).unwrap_or(u32::MAX),
            Operation::Rem => remainder(a, b),
            Operation::Remu => a.checked_rem(b).unwrap_or(a),
            _ => 0,
        }
    }

    fn departs(self) -> bool
        ensures { result ≡ departs self.instruction.operation self.a self.b }
    {
        match self.instruction.operation {
            Operation::Jal | Operation::Jalr => true,
            Operation::Beq => self.a == self.b,
            Operation::Bne => self.a != self.b,
            Operation::Blt => less(self.a, self.b),
            Operation::Bge => !less(self.a, self.b),
            Operation::Bltu => self.a < self.b,
            Operation::Bgeu => self.a >= self.b,
            _ => false,
        }
    }

    fn target(self) -> u32
        ensures { result ≡ target_of self.instruction.operation self.instruction.immediate self.pc self.a }
    {
        let bits = self.instruction.immediate.cast_unsigned();
        match self.instruction.operation {
            Operation::Jalr => lowest_bit_cleared(self.a.wrapping_add(bits)),
            _ => self.pc.wrapping_add(bits),
        }
    }

    fn outcome(self) -> Outcome
        ensures { result ≡ worked_out self.instruction self.pc self.a self.b }
    {
        if self.departs() {
            land(self.value(), self.target())
        } else {
            Outcome::Done {
                value: self.value(),
                next: self.pc.wrapping_add(4),
            }
        }
    }
}

// None for an instruction that has no class.
pub fn outcome(instruction: Instruction, pc: u32, a: u32, b: u32) -> Option<Outcome>
    ensures { result ≡ outcome_of instruction pc a b }
{
    let work = Work {
        instruction,
        pc,
        a,
        b,
    };
    instruction.operation.class().map(|_| work.outcome())
}
