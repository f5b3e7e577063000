// Instruction words read and written.
//
//   fields   a word as the six fields that every format is cut from
//   table    the row of each operation in the manual's tables
//   formats  what each of the seven formats holds of an instruction, and where
#![tactic(auto)]

ghost use Rattle.std.specs.Prelude.{◌≡◌, IfOk, Ok};
ghost use Rattle.words.specs.Words.{read_word, write_word, OneWord, OneInstruction};

use isa::instruction::Instruction;
use refusal::{IllegalWord, WriteFault};

mod fields;
mod formats;
mod table;

// A word that reads is what its instruction is written as, and no other word reads as that.
pub fn read(word: u32) -> Result<Instruction, IllegalWord>
    ensures value { result ≡ read_word word }
    ensures back { IfOk result (λ i. write_word i ≡ Ok word) }
    ensures one { IfOk result (OneWord word) }
{
    let fields = fields::split(word);
    let operation = table::choose(fields).ok_or(IllegalWord { word })?;
    Ok(formats::take(operation, fields))
}

// An instruction that is written is what its word reads as, and no other is written as that.
pub fn write(instruction: Instruction) -> Result<u32, WriteFault>
    ensures value { result ≡ write_word instruction }
    ensures back { IfOk result (λ w. read_word w ≡ Ok instruction) }
    ensures one { IfOk result (OneInstruction instruction) }
{
    let row = table::row_of(instruction.operation);
    if !formats::registers_fit(row.format, instruction) {
        return Err(WriteFault::BadRegister);
    }
    if !formats::immediate_fits(row.format, instruction.immediate) {
        return Err(WriteFault::BadImmediate);
    }
    Ok(fields::join(formats::lay(row, instruction)))
}
