//! The limits on the whole source, as a refusal names them.

ghost use Rattle.std.specs.Prelude.{◌≡◌};
ghost use Rattle.cobol_read.specs.Limit as limits;

use cob_base::limit::{MAX_SOURCE, past};
use cob_base::{Limit, LimitKind};

/// The limit on bytes of a source, of which one more than that counts.
pub fn past_source() -> Limit
    ensures { result ≡ limits.past_source }
{
    past(LimitKind::Source, false, MAX_SOURCE as u64 + 1)
}

/// The limit on tokens of a source that has so many.
pub fn past_tokens(counted: usize) -> Limit
    ensures { result ≡ limits.past_tokens counted }
{
    past(LimitKind::Tokens, false, counted as u64)
}

/// The limit on paragraphs of a program that has so many.
pub fn past_paragraphs(counted: usize) -> Limit
    ensures { result ≡ limits.past_paragraphs counted }
{
    past(LimitKind::Paragraphs, false, counted as u64)
}
