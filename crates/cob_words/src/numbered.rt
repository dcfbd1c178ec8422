//! Words with a number after them: `RX-PARA-1`, or the names of a generated program.
//!
//! A stem (`specs/numbered/Stem`) is what comes before the number. It is to be compared with ISO
//! 1989:1985, COBOL words: letters, digits and hyphens, neither first nor last a hyphen.

ghost use Rattle.std.specs.Prelude.{◌≡◌, ◌++◌};
ghost use Rattle.std.specs.Fmt.{decimal};
ghost use Rattle.cob_base.specs.Answers.{Makes};
ghost use Rattle.cob_base.specs.Spelling.{IsCapitalWord};
ghost use Rattle.cob_words.specs.numbered.Stem.{IsStem};

use cob_base::{NoMemory, Text, Word};
use std::alloc::Global;

/// The word that these bytes spell in capitals.
pub fn capital_word(bytes: &[u8]) -> Word
    requires { IsCapitalWord bytes.now }
    ensures { result ≡ bytes.now }
{
    match Word::new(bytes) {
        Some(word) => word,
        None => unreachable!(),
    }
}

/// Bytes with the decimal digits of a number after them, without leading zeros.
pub fn numbered_text(alloc: Global, stem: &[u8], number: u32) -> Result<Text, NoMemory>
    ensures { Makes (stem.now ++ decimal number) result }
{
    let mut bytes = Vec::from_slice(alloc, stem)?;
    let digits = format!(in alloc; "{number}")?;
    bytes.extend_from_slice(digits.as_bytes())?;
    Ok(Text { bytes })
}

/// The word of a stem with a number after it.
pub fn numbered(alloc: Global, stem: &[u8], number: u32) -> Result<Word, NoMemory>
    requires { IsStem stem.now }
    ensures { Makes (stem.now ++ decimal number) result }
{
    let text = numbered_text(alloc, stem, number)?;
    Ok(capital_word(text.as_slice()))
}
