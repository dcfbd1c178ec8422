//! Literals.

ghost use Rattle.cob_base.specs.Answers.{Answers, Makes};
ghost use Rattle.cobol_lex.specs.declared.fault.LexError.TheVariants.{NoMemory as Memory};
ghost use Rattle.cobol_lex.specs.Literal.{quoted_by, literal_lexeme};

use crate::fault::{LexError, LexFault};
use crate::lexeme::Lexeme;
use crate::token::TokenKind;
use cob_base::{NoMemory, Text};
use std::alloc::Global;

/// The most bytes that a literal can have.
const MOST_BYTES: usize = 160;

/// The bytes of a literal, and how many bytes of the text they and the closing mark take.
#[derive(Debug, Drop)]
pub struct Quoted {
    pub value: Text,
    pub taken: usize,
}

/// What a literal has after its opening mark, where the line has its closing mark.
fn quoted_by(alloc: Global, mark: u8, rest: &[u8]) -> Result<Option<Quoted>, NoMemory>
    ensures { Makes (quoted_by mark rest.now) result }
{
    let mut value = Text::new(alloc);
    let mut at = 0;
    while at < rest.len() {
        let b = rest[at];
        if b == mark {
            at += 1;
            if at == rest.len() || rest[at] != mark {
                return Ok(Some(Quoted { value, taken: at }));
            }
        } else if b == b'\n' {
            return Ok(None);
        }
        value.bytes.push(b)?;
        at += 1;
    }
    Ok(None)
}

/// The literal that begins here.
pub fn literal_lexeme(alloc: Global, line: u32, bytes: &[u8]) -> Result<Lexeme, LexError>
    ensures { Answers Memory (literal_lexeme line bytes.now) result }
{
    let [mark, rest @ ..] = bytes else {
        return Err(LexError::Fault(LexFault::OpenLiteral(line)));
    };
    let Some(Quoted { value, taken }) = quoted_by(alloc, *mark, rest)? else {
        return Err(LexError::Fault(LexFault::OpenLiteral(line)));
    };
    if value.len() == 0 || value.len() > MOST_BYTES {
        return Err(LexError::Fault(LexFault::BadWord(line)));
    }
    Ok(Lexeme {
        kind: TokenKind::Literal(value),
        length: 1 + taken,
    })
}
