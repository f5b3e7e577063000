// The row of each operation in the manual's tables, and the operation that a word's fields belong to.
ghost use Rattle.std.specs.Prelude.{◌≡◌};
ghost use Rattle.words.specs.Table.{row_of, chosen};

use crate::fields::Fields;
use isa::operation::Operation;

#[derive(Clone, Copy)]
pub enum Format {
    R,
    I,
    Shift,
    B,
    U,
    J,
    Fixed,
}

#[derive(Clone, Copy)]
pub struct Row {
    pub format: Format,
    pub opcode: u32,
    pub funct3: u32,
    pub funct7: u32,
    pub rs2: u32,
}

const LUI: u32 = 0x37;

const AUIPC: u32 = 0x17;

const JAL: u32 = 0x6f;

const JALR: u32 = 0x67;

const BRANCH: u32 = 0x63;

const OP_IMM: u32 = 0x13;

const OP: u32 = 0x33;

const SYSTEM: u32 = 0x73;

pub(crate) fn row_of(operation: Operation) -> Row
    ensures { result ≡ row_of operation }
{
    let (format, opcode, funct3, funct7, rs2) = match operation {
        Operation::Lui => (Format::U, LUI, 0, 0, 0),
        Operation::Auipc => (Format::U, AUIPC, 0, 0, 0),
        Operation::Jal => (Format::J, JAL, 0, 0, 0),
        Operation::Jalr => (Format::I, JALR, 0, 0, 0),
        Operation::Beq => (Format::B, BRANCH, 0, 0, 0),
        Operation::Bne => (Format::B, BRANCH, 1, 0, 0),
        Operation::Blt => (Format::B, BRANCH, 4, 0, 0),
        Operation::Bge => (Format::B, BRANCH, 5, 0, 0),
        Operation::Bltu => (Format::B, BRANCH, 6, 0, 0),
        Operation::Bgeu => (Format::B, BRANCH, 7, 0, 0),
        Operation::Addi => (Format::I, OP_IMM, 0, 0, 0),
        Operation::Slti => (Format::I, OP_IMM, 2, 0, 0),
        Operation::Sltiu => (Format::I, OP_IMM, 3, 0, 0),
        Operation::Xori => (Format::I, OP_IMM, 4, 0, 0),
        Operation::Ori => (Format::I, OP_IMM, 6, 0, 0),
        Operation::Andi => (Format::I, OP_IMM, 7, 0, 0),
        Operation::Slli => (Format::Shift, OP_IMM, 1, 0, 0),
        Operation::Srli => (Format::Shift, OP_IMM, 5, 0, 0),
        Operation::Srai => (Format::Shift, OP_IMM, 5, 0x20, 0),
        Operation::Add => (Format::R, OP, 0, 0, 0),
        Operation::Sub => (Format::R, OP, 0, 0x20, 0),
        Operation::Sll => (Format::R, OP, 1, 0, 0),
        Operation::Slt => (Format::R, OP, 2, 0, 0),
        Operation::Sltu => (Format::R, OP, 3, 0, 0),
        Operation::Xor => (Format::R, OP, 4, 0, 0),
        Operation::Srl => (Format::R, OP, 5, 0, 0),
        Operation::Sra => (Format::R, OP, 5, 0x20, 0),
        Operation::Or => (Format::R, OP, 6, 0, 0),
        Operation::And => (Format::R, OP, 7, 0, 0),
        Operation::Mul => (Format::R, OP, 0, 1, 0),
        Operation::Div => (Format::R, OP, 4, 1, 0),
        Operation::Divu => (Format::R, OP, 5, 1, 0),
        Operation::Rem => (Format::R, OP, 6, 1, 0),
        Operation::Remu => (Format::R, OP, 7, 1, 0),
        Operation::Ecall => (Format::Fixed, SYSTEM, 0, 0, 0),
        Operation::Ebreak => (Format::Fixed, SYSTEM, 0, 0, 1),
        Operation::Mret => (Format::Fixed, SYSTEM, 0, 0x18, 2),
    };
    Row {
        format,
        opcode,
        funct3,
        funct7,
        rs2,
    }
}

pub(crate) fn choose(fields: Fields) -> Option<Operation>
    ensures { result ≡ chosen fields }
{
    match (fields.opcode, fields.funct3, fields.funct7) {
        (LUI, _, _) => Some(Operation::Lui),
        (AUIPC, _, _) => Some(Operation::Auipc),
        (JAL, _, _) => Some(Operation::Jal),
        (JALR, 0, _) => Some(Operation::Jalr),
        (BRANCH, 0, _) => Some(Operation::Beq),
        (BRANCH, 1, _) => Some(Operation::Bne),
        (BRANCH, 4, _) => Some(Operation::Blt),
        (BRANCH, 5, _) => Some(Operation::Bge),
        (BRANCH, 6, _) => Some(Operation::Bltu),
        (BRANCH, 7, _) => Some(Operation::Bgeu),
        (OP_IMM, 0, _) => Some(Operation::Addi),
        (OP_IMM, 2, _) => Some(Operation::Slti),
        (OP_IMM, 3, _) => Some(Operation::Sltiu),
        (OP_IMM, 4, _) => Some(Operation::Xori),
        (OP_IMM, 6, _) => Some(Operation::Ori),
        (OP_IMM, 7, _) => Some(Operation::Andi),
        (OP_IMM, 1, 0) => Some(Operation::Slli),
        (OP_IMM, 5, 0) => Some(Operation::Srli),
        (OP_IMM, 5, 0x20) => Some(Operation::Srai),
        (OP, 0, 0) => Some(Operation::Add),
        (OP, 0, 0x20) => Some(Operation::Sub),
        (OP, 1, 0) => Some(Operation::Sll),
        (OP, 2, 0) => Some(Operation::Slt),
        (OP, 3, 0) => Some(Operation::Sltu),
        (OP, 4, 0) => Some(Operation::Xor),
        (OP, 5, 0) => Some(Operation::Srl),
        (OP, 5, 0x20) => Some(Operation::Sra),
        (OP, 6, 0) => Some(Operation::Or),
        (OP, 7, 0) => Some(Operation::And),
        (OP, 0, 1) => Some(Operation::Mul),
        (OP, 4, 1) => Some(Operation::Div),
        (OP, 5, 1) => Some(Operation::Divu),
        (OP, 6, 1) => Some(Operation::Rem),
        (OP, 7, 1) => Some(Operation::Remu),
        (SYSTEM, 0, _) if fields.rd == 0 && fields.rs1 == 0 => {
            match (fields.funct7, fields.rs2) {
                (0, 0) => Some(Operation::Ecall),
                (0, 1) => Some(Operation::Ebreak),
                (0x18, 2) => Some(Operation::Mret),
                _ => None,
            }
        }
        _ => None,
    }
}
