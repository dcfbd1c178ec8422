//! Program text to tokens.
//!
//! `tokens` reads words, numbers, literals, pictures and marks, each with the line on which it
//! begins. `tokens_of` is to be compared with ISO 1989:1985, Reference Format and
//! Character-Strings. These laws support it: what is written as a token is read back in any layout
//! (`laid_reads_back`), there is nothing but separators around tokens (`tokens_cover`), and their
//! lines never decrease (`token_lines_rise`). That `tokens` succeeds where memory is ample is
//! tested.
#![tactic(auto)]

mod awaits;
mod byte;
mod fault;
mod lanes;
mod laws;
mod lexeme;
mod literal;
mod number;
mod picture;
mod separator;
mod token;
mod word;

ghost use Rattle.cob_base.specs.Answers.{Answers};
ghost use Rattle.cobol_lex.specs.Token.{tokens_of};
ghost use Rattle.cobol_lex.specs.declared.fault.LexError.TheVariants.{NoMemory as Memory};

use awaits::{Awaits, awaits_behind};
use byte::is_separator;
use cob_base::Items;
pub use fault::{LexError, LexFault};
pub use laws::{
    laid_reads_back, picture_reads_back, text_reads_back, token_lines_rise, token_reads_back,
    tokens_cover,
};
use lexeme::next_lexeme;
use ref_format::ProgramText;
use separator::separators_end;
use std::alloc::Global;
pub use token::{Token, TokenKind};

/// The tokens of a program text, or its first fault, with the line on which the token begins.
///
/// The bytes are on the lines that `text` gives them. A sign at the beginning of a text doesn't
/// begin a number, since nothing comes before it.
pub fn tokens(alloc: Global, text: &ProgramText) -> Result<Items<Token>, LexError>
    ensures { Answers Memory (tokens_of text.now) result }
{
    let bytes = text.bytes();
    let mut lines = text.lines();
    let mut tokens = Items::new(alloc);
    let mut awaits = Awaits::Any;
    let mut before = 0;
    let mut at = 0;
    while at < bytes.len() {
        if is_separator(bytes[at]) {
            let end = separators_end(bytes, at);
            lines.pass(end - at);
            at = end;
            before = bytes[at - 1];
            continue;
        }
        let line = lines.first();
        let lexeme = next_lexeme(alloc, awaits, before, line, &bytes[at..])?;
        awaits = awaits_behind(awaits, &lexeme.kind);
        lines.pass(lexeme.length);
        at += lexeme.length;
        before = bytes[at - 1];
        tokens.push(Token {
            kind: lexeme.kind,
            line,
        })?;
    }
    Ok(tokens)
}
