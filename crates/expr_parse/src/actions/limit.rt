//! What is counted while a condition or an expression is read.

ghost use Rattle.parser_combinators.specs.Reading.{Reads};
ghost use Rattle.cobol_grammar.specs.expr_forms.Limit as limits;

use cob_base::limit::MAX_TERMS;
use parser_combinators::{Cursor, Unread, Why};

/// Adds so many terms to the count, unless they pass the limit at the next token.
pub fn count_terms(cursor: &Cursor<'_>, count: u32, more: u32) -> Result<u32, Unread>
    ensures { Reads ((limits.count_terms count more).reads cursor.now) result cursor.now }
{
    match count.checked_add(more) {
        Some(sum) if sum <= MAX_TERMS => Ok(sum),
        _ => Err(Unread::Stop(Why::Terms)),
    }
}
