//! Texts with their lines, as the reference format gives them, and their tokens.

use cob_base::{Items, NoMemory};
use cobol_lex::{LexError, Token, tokens};
use ref_format::ProgramText;
use std::alloc::Global;

/// The parts, one after another. A line ends at a line end, and at the end of a part.
pub fn placed(alloc: Global, parts: &[&[u8]]) -> Result<ProgramText, NoMemory> {
    let mut text = ProgramText::new(alloc);
    let mut line = 1u32;
    for part in parts {
        for byte in *part {
            text.add(line, &[*byte])?;
            if *byte == b'\n' {
                line = line.wrapping_add(1);
            }
        }
        line = line.wrapping_add(1);
    }
    Ok(text)
}

/// The tokens of a text.
pub fn tokens_of(alloc: Global, text: &str) -> Result<Items<Token>, LexError> {
    let text = placed(alloc, &[text.as_bytes()])?;
    tokens(alloc, &text)
}
