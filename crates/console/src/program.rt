// Program text: one word a line, with blank lines and comments between them.
ghost use Rattle.std.specs.Prelude.{◌≡◌, ℕ, ◌⊎◌, List, ◌++◌, Ok, Err, MatchResult};
ghost use Rattle.console.specs.declared.program.ProgramFault.TheVariants.{NoMemory};
ghost use Rattle.console.specs.Lines.{line_word};
ghost use Rattle.console.specs.ProgramText.{words_of_line, program_words};

use crate::lines::{WordFault, parse_line};
use std::alloc::{AllocFailed, Global};

#[derive(Clone, Copy)]
pub enum ProgramFault {
    BadLine(usize, WordFault),
    NoMemory,
}

impl<T: Drop> From<AllocFailed<T>> for ProgramFault {
    ghost from_gives = { λ _ r. r ≡ NoMemory };

    fn from(_refused: AllocFailed<T>) -> ProgramFault {
        ProgramFault::NoMemory
    }
}

fn take_line(words: &mut Vec<u32>, number: usize, line: &[u8]) -> Result<(), ProgramFault>
    ensures { MatchResult result (λ _. (ws : List ℕ) × (words_of_line number (line_word line.now) ≡ Ok ws) × (words.new.items ≡ words.old.items ++ ws)) (λ e. (e ≡ NoMemory) ⊎ (words_of_line number (line_word line.now) ≡ Err e)) }
{
    let word = parse_line(line).map_err(|fault| ProgramFault::BadLine(number, fault))?;
    if let Some(word) = word {
        words.push(word)?;
    }
    Ok(())
}

pub fn parse_program(heap: Global, text: &[u8]) -> Result<Vec<u32>, ProgramFault>
    ensures { MatchResult result (λ v. program_words text.now ≡ Ok v.items) (λ e. (e ≡ NoMemory) ⊎ (program_words text.now ≡ Err e)) }
{
    let mut words = Vec::new(heap);
    for (i, line) in text.split(|byte| *byte == b'\n').enumerate() {
        take_line(&mut words, i + 1, line)?;
    }
    Ok(words)
}
