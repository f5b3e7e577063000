// An assembler writes instructions as words, and reads one back.
use isa::instruction::Instruction;
use isa::operation::Operation;
use report::hex::Hex8;
use std::io;
use words::{read, write};

fn addi(rd: u8, immediate: i32) -> Instruction {
    Instruction {
        operation: Operation::Addi,
        rd,
        rs1: 0,
        rs2: 0,
        immediate,
    }
}

fn assemble(rt: &HostRuntime, instruction: Instruction) -> io::Result<()> {
    let word = match write(instruction) {
        Ok(word) => word,
        Err(fault) => return println!(rt; "assemblers: {instruction} is refused by {fault}"),
    };
    println!(rt; "assemblers: {instruction} is {}", Hex8(word))?;
    if let Ok(back) = read(word) {
        println!(rt; "assemblers: {} reads {back}", Hex8(word))?;
    }
    Ok(())
}

pub(crate) fn show(rt: &HostRuntime) -> io::Result<()> {
    assemble(rt, addi(1, 2047))?;
    assemble(rt, addi(1, 2048))?;
    assemble(rt, addi(32, 2048))
}
