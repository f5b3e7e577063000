// What each format holds of an instruction, and where.
ghost use Rattle.std.specs.Prelude.{◌≡◌, ◌+◌, ◌^◌, ◌<◌, IsTrue};
ghost use Rattle.words.specs.Table.{row_of};
ghost use Rattle.words.specs.Formats.{signed, immediate_of, has_rd, has_rs1, has_rs2, taken, register_fits, registers_fit, immediate_fits, lay_of};

use crate::fields::Fields;
use crate::table;
use crate::table::{Format, Row};
use isa::instruction::Instruction;
use isa::operation::Operation;

// The number that the low bits of a two's complement number stand for, `half` being the worth of the top one.
fn sign_extended(n: u32, half: u32) -> i32
    requires { (half < 2 ^ 30) × (n < half + half) }
    ensures { result ≡ signed half n }
{
    if n < half {
        n as i32
    } else {
        n as i32 - (half + half) as i32
    }
}

fn immediate_of(format: Format, fields: Fields) -> i32
    ensures { result ≡ immediate_of format fields }
{
    match format {
        Format::R | Format::Fixed => 0,
        Format::I => sign_extended((fields.funct7 << 5) + fields.rs2, 1 << 11),
        Format::Shift => fields.rs2 as i32,
        Format::B => {
            let top = fields.funct7 / 64 << 12;
            let eleventh = fields.rd % 2 << 11;
            let middle = fields.funct7 % 64 << 5;
            let low = fields.rd / 2 << 1;
            sign_extended(top + eleventh + middle + low, 1 << 12)
        }
        Format::U => {
            let upper = (fields.funct7 << 13)
                + (fields.rs2 << 8)
                + (fields.rs1 << 3)
                + fields.funct3;
            upper as i32
        }
        Format::J => {
            let top = fields.funct7 / 64 << 20;
            let high = (fields.rs1 << 15) + (fields.funct3 << 12);
            let eleventh = fields.rs2 % 2 << 11;
            let middle = fields.funct7 % 64 << 5;
            let low = fields.rs2 / 2 << 1;
            sign_extended(top + high + eleventh + middle + low, 1 << 20)
        }
    }
}

fn has_rd(format: Format) -> bool
    ensures { result ≡ has_rd format }
{
    !matches!(format, Format::B | Format::Fixed)
}

fn has_rs1(format: Format) -> bool
    ensures { result ≡ has_rs1 format }
{
    matches!(format, Format::R | Format::I | Format::Shift | Format::B)
}

fn has_rs2(format: Format) -> bool
    ensures { result ≡ has_rs2 format }
{
    matches!(format, Format::R | Format::B)
}

pub(crate) fn take(operation: Operation, fields: Fields) -> Instruction
    ensures { result ≡ taken operation fields }
{
    let format = table::row_of(operation).format;
    Instruction {
        operation,
        rd: if has_rd(format) { fields.rd as u8 } else { 0 },
        rs1: if has_rs1(format) { fields.rs1 as u8 } else { 0 },
        rs2: if has_rs2(format) { fields.rs2 as u8 } else { 0 },
        immediate: immediate_of(format, fields),
    }
}

fn register_fits(has: bool, register: u8) -> bool
    ensures { result ≡ register_fits has register }
{
    if has { register < 32 } else { register == 0 }
}

pub(crate) fn registers_fit(format: Format, instruction: Instruction) -> bool
    ensures { result ≡ registers_fit format instruction }
{
    register_fits(has_rd(format), instruction.rd)
        && register_fits(has_rs1(format), instruction.rs1)
        && register_fits(has_rs2(format), instruction.rs2)
}

pub(crate) fn immediate_fits(format: Format, immediate: i32) -> bool
    ensures { result ≡ immediate_fits format immediate }
{
    match format {
        Format::R | Format::Fixed => immediate == 0,
        Format::I => (-2048..2048).contains(&immediate),
        Format::Shift => (0..32).contains(&immediate),
        Format::B => (-4096..4096).contains(&immediate) && immediate.cast_unsigned() % 2 == 0,
        Format::U => (0..0x10_0000).contains(&immediate),
        Format::J => {
            (-0x10_0000..0x10_0000).contains(&immediate) && immediate.cast_unsigned() % 2 == 0
        }
    }
}

pub(crate) fn lay(row: Row, instruction: Instruction) -> Fields
    requires row { row ≡ row_of instruction.operation }
    requires registers { IsTrue (registers_fit row.format instruction) }
    ensures { result ≡ lay_of row instruction }
{
    let bits = instruction.immediate.cast_unsigned();
    let fields = Fields {
        opcode: row.opcode,
        rd: u32::from(instruction.rd),
        funct3: row.funct3,
        rs1: u32::from(instruction.rs1),
        rs2: u32::from(instruction.rs2),
        funct7: row.funct7,
    };
    match row.format {
        Format::R => fields,
        Format::I => Fields {
            rs2: bits % 32,
            funct7: (bits >> 5) % 128,
            ..fields
        },
        Format::Shift => Fields {
            rs2: bits % 32,
            ..fields
        },
        Format::B => Fields {
            rd: (bits >> 1) % 16 * 2 + (bits >> 11) % 2,
            funct7: (bits >> 12) % 2 * 64 + (bits >> 5) % 64,
            ..fields
        },
        Format::U => Fields {
            funct3: bits % 8,
            rs1: (bits >> 3) % 32,
            rs2: (bits >> 8) % 32,
            funct7: (bits >> 13) % 128,
            ..fields
        },
        Format::J => Fields {
            funct3: (bits >> 12) % 8,
            rs1: (bits >> 15) % 32,
            rs2: (bits >> 1) % 16 * 2 + (bits >> 11) % 2,
            funct7: (bits >> 20) % 2 * 64 + (bits >> 5) % 64,
            ..fields
        },
        Format::Fixed => Fields {
            rd: 0,
            rs1: 0,
            rs2: row.rs2,
            ..fields
        },
    }
}
