//! Words that may be one or another, or be left out.

ghost use Rattle.std.specs.Prelude.{◌≡◌};
ghost use Rattle.parser_combinators.specs.Form as form;
ghost use Rattle.parser_combinators.specs.Reading.{Reads};
ghost use Rattle.cobol_grammar.specs.data_forms.Choice as choices;

use parser_combinators::{Cursor, Position, Unread};

/// Whether one of two words is next.
pub fn sees_either(cursor: &Cursor<'_>, one: &[u8], other: &[u8]) -> bool
    ensures { result ≡ form.is_next (choices.is_either one.now other.now) cursor.now }
{
    cursor.sees(one) || cursor.sees(other)
}

/// Takes one of two words, and gives its position.
#[tactic(auto, unfolding(cobol_grammar::specs::data_forms::Choice::either))]
pub fn either(cursor: &mut Cursor<'_>, one: &[u8], other: &[u8]) -> Result<Position, Unread>
    ensures { Reads ((choices.either one.now other.now).reads cursor.old) result cursor.new }
{
    if cursor.sees(one) {
        cursor.key(one)
    } else {
        cursor.key(other)
    }
}

/// Takes one of two words, where it is next.
#[tactic(auto, unfolding(cobol_grammar::specs::data_forms::Choice::maybe_either))]
pub fn maybe_either(cursor: &mut Cursor<'_>, one: &[u8], other: &[u8]) -> Result<(), Unread>
    ensures { Reads ((choices.maybe_either one.now other.now).reads cursor.old) result cursor.new }
{
    if cursor.sees(one) {
        cursor.key(one)?;
        Ok(())
    } else {
        cursor.maybe(other);
        Ok(())
    }
}

/// Takes a word and a period.
#[tactic(auto, unfolding(cobol_grammar::specs::data_forms::Choice::headed))]
pub fn headed(cursor: &mut Cursor<'_>, word: &[u8]) -> Result<(), Unread>
    ensures { Reads ((choices.headed word.now).reads cursor.old) result cursor.new }
{
    cursor.key(word)?;
    cursor.period()?;
    Ok(())
}

/// Takes a header: two words and a period.
#[tactic(auto, unfolding(cobol_grammar::specs::data_forms::Choice::header))]
pub fn header(cursor: &mut Cursor<'_>, name: &[u8], kind: &[u8]) -> Result<(), Unread>
    ensures { Reads ((choices.header name.now kind.now).reads cursor.old) result cursor.new }
{
    cursor.key(name)?;
    headed(cursor, kind)
}
