// A word as the six fields that every format is cut from.
ghost use Rattle.std.specs.Prelude.{◌≡◌};
ghost use Rattle.words.specs.Fields.{cut, joined};

use std::marker::Model;

#[derive(Clone, Copy)]
pub struct Fields {
    pub opcode: u32,
    pub rd: u32,
    pub funct3: u32,
    pub rs1: u32,
    pub rs2: u32,
    pub funct7: u32,
}

impl Model for Fields {
    ghost use Rattle.words.specs.Fields.{Fields as Parts, Whole};

    ghost Value = { Parts };

    ghost view = { λ f. record { opcode = f.opcode; rd = f.rd; funct3 = f.funct3; rs1 = f.rs1; rs2 = f.rs2; funct7 = f.funct7 } };

    ghost inverse = { λ f. record { opcode = f.opcode; rd = f.rd; funct3 = f.funct3; rs1 = f.rs1; rs2 = f.rs2; funct7 = f.funct7 } };

    // each field is within its bits
    ghost invariant = { λ f. Whole (record { opcode = f.opcode; rd = f.rd; funct3 = f.funct3; rs1 = f.rs1; rs2 = f.rs2; funct7 = f.funct7 }) };
}

pub(crate) fn split(word: u32) -> Fields
    ensures { result ≡ cut word }
{
    Fields {
        opcode: word & 0x7f,
        rd: word >> 7 & 0x1f,
        funct3: word >> 12 & 0x7,
        rs1: word >> 15 & 0x1f,
        rs2: word >> 20 & 0x1f,
        funct7: word >> 25,
    }
}

pub(crate) fn join(fields: Fields) -> u32
    ensures { result ≡ joined fields }
{
    fields.funct7 << 25
        | fields.rs2 << 20
        | fields.rs1 << 15
        | fields.funct3 << 12
        | fields.rd << 7
        | fields.opcode
}
