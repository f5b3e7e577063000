// What the word at an address asks for, before any operand is known.
ghost use Rattle.std.specs.Prelude.{◌≡◌};
ghost use Rattle.machine.specs.Classes.{serves};
ghost use Rattle.machine.specs.Decode.{decoded, kind_decoded};

use crate::cause::Cause;
use crate::classes::Classes;
use isa::instruction::Instruction;
use isa::operation::{Class, Kind};
use words::read;

#[derive(Clone, Copy)]
pub enum Decoded {
    Trap(Cause),
    // MRET
    Return,
    // an instruction that a served class works out
    Work(Class, Instruction),
}

fn decode_kind(served: Classes, instruction: Instruction, kind: Kind) -> Decoded
    ensures { result ≡ kind_decoded (serves served) instruction kind }
{
    match kind {
        Kind::EnvironmentCall => Decoded::Trap(Cause::EnvironmentCall),
        Kind::Breakpoint => Decoded::Trap(Cause::Breakpoint),
        Kind::TrapReturn => Decoded::Return,
        Kind::Worked(class) => {
            if served.has(class) {
                Decoded::Work(class, instruction)
            } else {
                Decoded::Trap(Cause::IllegalInstruction)
            }
        }
    }
}

pub fn decode(served: Classes, word: Option<u32>) -> Decoded
    ensures { result ≡ decoded (serves served) word }
{
    let Some(word) = word else {
        return Decoded::Trap(Cause::AccessFault);
    };
    match read(word) {
        Ok(instruction) => decode_kind(served, instruction, instruction.operation.kind()),
        Err(_) => Decoded::Trap(Cause::IllegalInstruction),
    }
}
