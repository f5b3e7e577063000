// Instructions in assembler syntax.
ghost use Rattle.std.specs.Prelude.{◌≡◌, Some};
ghost use Rattle.isa.specs.Text.{mnemonic_of, text_of};

use crate::instruction::Instruction;
use crate::operation::Operation;
use std::fmt;

// In the order of the variants; a `match` would be an arm and a line for each of the 37.
const MNEMONICS: [&str; 37] = [
    "lui", "auipc", "jal", "jalr", "beq", "bne", "blt", "bge", "bltu", "bgeu", "addi", "slti",
    "sltiu", "xori", "ori", "andi", "slli", "srli", "srai", "add", "sub", "sll", "slt", "sltu",
    "xor", "srl", "sra", "or", "and", "mul", "div", "divu", "rem", "remu", "ecall", "ebreak",
    "mret",
];

pub fn mnemonic(operation: Operation) -> &'static str
    ensures { result.now ≡ mnemonic_of operation }
{
    MNEMONICS[operation as usize]
}

impl fmt::Display for Instruction {
    ghost output = { λ i. Some (text_of i) };

    fn fmt<W: fmt::Write>(&self, f: &mut fmt::Formatter<W>) -> fmt::Result {
        let Instruction {
            operation,
            rd,
            rs1,
            rs2,
            immediate,
        } = *self;
        let name = mnemonic(operation);
        match operation {
            Operation::Lui | Operation::Auipc | Operation::Jal => write!(
                f,
                "{name} x{rd}, {immediate}"
            ),
            Operation::Jalr => write!(f, "{name} x{rd}, {immediate}(x{rs1})"),
            Operation::Beq
            | Operation::Bne
            | Operation::Blt
            | Operation::Bge
            | Operation::Bltu
            | Operation::Bgeu => write!(f, "{name} x{rs1}, x{rs2}, {immediate}"),
            Operation::Addi
            | Operation::Slti
            | Operation::Sltiu
            | Operation::Xori
            | Operation::Ori
            | Operation::Andi
            | Operation::Slli
            | Operation::Srli
            | Operation::Srai => write!(f, "{name} x{rd}, x{rs1}, {immediate}"),
            Operation::Ecall | Operation::Ebreak | Operation::Mret => write!(f, "{name}"),
            _ => write!(f, "{name} x{rd}, x{rs1}, x{rs2}"),
        }
    }
}
