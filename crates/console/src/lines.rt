// A line of program text: a word in hex digits, or nothing, with a comment from `#` on.
ghost use Rattle.std.specs.Prelude.{◌≡◌};
ghost use Rattle.console.specs.Lines.{blank, before, word_fault, trimmed_front, trimmed_back, line_text, hex_word, line_word};

use crate::digits;
use crate::digits::DigitsFault;

#[derive(Clone, Copy)]
pub enum WordFault {
    NotHex(u8),
    TooWide,
    NoDigits,
}

impl From<DigitsFault> for WordFault {
    ghost from_gives = { λ fault r. r ≡ word_fault fault };

    fn from(fault: DigitsFault) -> WordFault {
        match fault {
            DigitsFault::NoDigits => WordFault::NoDigits,
            DigitsFault::NotADigit(byte) => WordFault::NotHex(byte),
            DigitsFault::TooLarge => WordFault::TooWide,
        }
    }
}

fn is_blank(byte: u8) -> bool
    ensures { result ≡ blank byte }
{
    matches!(byte, b' ' | b'\t' | b'\r')
}

// What stands before the first such byte, or all of it where there is none.
fn text_before(byte: u8, text: &[u8]) -> &[u8]
    ensures { result.now ≡ before byte text.now }
{
    match text.iter().position(|found| *found == byte) {
        Some(end) => &text[..end],
        None => text,
    }
}

// Not `trim_ascii`, here and below: it takes a line feed and a form feed for blanks too.
fn trim_front(text: &[u8]) -> &[u8]
    ensures { result.now ≡ trimmed_front text.now }
{
    let blanks = text.iter().take_while(|byte| is_blank(**byte)).count();
    &text[blanks..]
}

fn trim_back(text: &[u8]) -> &[u8]
    ensures { result.now ≡ trimmed_back text.now }
{
    let blanks = text
        .iter()
        .rev()
        .take_while(|byte| is_blank(**byte))
        .count();
    &text[..text.len() - blanks]
}

fn parse_hex_word(text: &[u8]) -> Result<u32, WordFault>
    ensures { result ≡ hex_word text.now }
{
    // a text that is too wide is looked through, not worked out
    if text.len() > 8 {
        let stranger = digits::first_stranger(16, text);
        return Err(stranger.map_or(WordFault::TooWide, WordFault::NotHex));
    }
    let word = digits::parse(16, text)?;
    Ok(word as u32)
}

// What a line says: without its comment, and the blanks around it.
pub fn line_text(line: &[u8]) -> &[u8]
    ensures { result.now ≡ line_text line.now }
{
    trim_back(trim_front(text_before(b'#', line)))
}

// None for a line with no word on it.
pub fn parse_line(line: &[u8]) -> Result<Option<u32>, WordFault>
    ensures { result ≡ line_word line.now }
{
    let text = line_text(line);
    if text.is_empty() {
        return Ok(None);
    }
    parse_hex_word(digits::after_hex_mark(text).unwrap_or(text)).map(Some)
}
