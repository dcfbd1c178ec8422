//! The phrases of arithmetic and of READ.

ghost use Rattle.std.specs.Prelude.{◌≡◌};
ghost use Rattle.parser_combinators.specs.Form as form;
ghost use Rattle.parser_combinators.specs.Reading.{Reads};
ghost use Rattle.cobol_grammar.specs.stmt_forms.Arms as forms;
ghost use Rattle.cobol_grammar.specs.stmt_forms.Stmt as all;

use cobol_grammar::stmt_forms::{ArithmeticVerb, NotPhrase, Phrase};
use parser_combinators::{Cursor, Unread, Why};

/// Takes nothing, where a level is left.
#[tactic(auto, unfolding(cobol_grammar::specs::stmt_forms::Stmt::enter_level))]
pub fn enter_level(cursor: &Cursor<'_>, levels: u32) -> Result<(), Unread>
    ensures { Reads ((all.enter_level levels).reads cursor.now) result cursor.now }
{
    if levels == 0 {
        Err(Unread::Stop(Why::Nesting))
    } else {
        Ok(())
    }
}

#[tactic(auto, unfolding(cobol_grammar::specs::stmt_forms::Arms::begins_phrase))]
fn at_phrase(cursor: &Cursor<'_>, phrase: Phrase) -> bool
    ensures { result ≡ form.is_next (forms.begins_phrase phrase) cursor.now }
{
    match phrase {
        Phrase::End => cursor.sees(b"AT") || cursor.sees(b"END"),
        Phrase::Size => cursor.sees(b"ON") || cursor.sees(b"SIZE"),
    }
}

#[tactic(auto, unfolding(cobol_grammar::specs::stmt_forms::Arms::end_words))]
fn end_words(cursor: &mut Cursor<'_>) -> Result<(), Unread>
    ensures { Reads (forms.end_words.reads cursor.old) result cursor.new }
{
    cursor.maybe(b"AT");
    cursor.key(b"END")?;
    Ok(())
}

#[tactic(auto, unfolding(cobol_grammar::specs::stmt_forms::Arms::size_words))]
fn size_words(cursor: &mut Cursor<'_>) -> Result<(), Unread>
    ensures { Reads (forms.size_words.reads cursor.old) result cursor.new }
{
    cursor.maybe(b"ON");
    cursor.key(b"SIZE")?;
    cursor.key(b"ERROR")?;
    Ok(())
}

#[tactic(auto, unfolding(cobol_grammar::specs::stmt_forms::Arms::phrase_words))]
fn phrase_words(cursor: &mut Cursor<'_>, phrase: Phrase) -> Result<(), Unread>
    ensures { Reads ((forms.phrase_words phrase).reads cursor.old) result cursor.new }
{
    match phrase {
        Phrase::End => end_words(cursor),
        Phrase::Size => size_words(cursor),
    }
}

#[tactic(auto, unfolding(cobol_grammar::specs::stmt_forms::Arms::entering_words))]
fn entering_words(cursor: &mut Cursor<'_>, phrase: Phrase, levels: u32) -> Result<(), Unread>
    ensures { Reads ((forms.entering_words phrase (all.enter_level levels)).reads cursor.old)
        result cursor.new }
{
    enter_level(cursor, levels)?;
    phrase_words(cursor, phrase)
}

/// Takes the words of a first phrase, where they are next, and answers whether they were.
#[tactic(auto, unfolding(cobol_grammar::specs::stmt_forms::Arms::first_phrase))]
pub fn first_phrase(cursor: &mut Cursor<'_>, phrase: Phrase, levels: u32) -> Result<bool, Unread>
    ensures { Reads ((forms.first_phrase phrase (all.enter_level levels)).reads cursor.old)
        result cursor.new }
{
    if at_phrase(cursor, phrase) {
        entering_words(cursor, phrase, levels)?;
        Ok(true)
    } else {
        Ok(false)
    }
}

#[tactic(auto, unfolding(cobol_grammar::specs::stmt_forms::Arms::own_words))]
fn own_words(
    cursor: &mut Cursor<'_>,
    phrase: Phrase,
    levels: u32,
    has_first: bool,
) -> Result<NotPhrase, Unread>
    ensures { Reads ((forms.own_words phrase (all.enter_level levels) has_first).reads cursor.old)
        result cursor.new }
{
    if has_first {
        phrase_words(cursor, phrase)?;
    } else {
        entering_words(cursor, phrase, levels)?;
    }
    Ok(NotPhrase::Own)
}

#[tactic(auto, unfolding(cobol_grammar::specs::stmt_forms::Arms::behind_not))]
fn behind_not(
    cursor: &mut Cursor<'_>,
    phrase: Phrase,
    levels: u32,
    has_first: bool,
) -> Result<NotPhrase, Unread>
    ensures { Reads ((forms.behind_not phrase (all.enter_level levels) has_first).reads cursor.old)
        result cursor.new }
{
    if at_phrase(cursor, phrase) {
        own_words(cursor, phrase, levels, has_first)
    } else {
        Ok(NotPhrase::Foreign)
    }
}

#[tactic(auto, unfolding(cobol_grammar::specs::stmt_forms::Arms::not_or_none))]
fn not_or_none(
    cursor: &mut Cursor<'_>,
    phrase: Phrase,
    levels: u32,
    has_first: bool,
) -> Result<NotPhrase, Unread>
    ensures { Reads ((forms.not_or_none phrase (all.enter_level levels) has_first).reads cursor.old)
        result cursor.new }
{
    if cursor.sees(b"NOT") {
        cursor.key(b"NOT")?;
        behind_not(cursor, phrase, levels, has_first)
    } else {
        Ok(NotPhrase::Missing)
    }
}

/// Takes NOT and the words of a second phrase, as far as they are next and are its own.
#[tactic(auto, unfolding(cobol_grammar::specs::stmt_forms::Arms::not_phrase))]
pub fn not_phrase(
    cursor: &mut Cursor<'_>,
    phrase: Phrase,
    levels: u32,
    has_first: bool,
    pending_not: bool,
) -> Result<NotPhrase, Unread>
    ensures { Reads ((forms.not_phrase phrase (all.enter_level levels) has_first pending_not).reads
        cursor.old)
        result cursor.new }
{
    if pending_not {
        behind_not(cursor, phrase, levels, has_first)
    } else {
        not_or_none(cursor, phrase, levels, has_first)
    }
}

/// Takes the word that ends a statement, where it is next, unless NOT was read.
#[tactic(auto, unfolding(cobol_grammar::specs::stmt_forms::Arms::end_word))]
pub fn end_word(cursor: &mut Cursor<'_>, word: &[u8], pending_not: bool) -> Result<(), Unread>
    ensures { Reads ((forms.end_word word.now pending_not).reads cursor.old) result cursor.new }
{
    if !pending_not {
        cursor.maybe(word);
    }
    Ok(())
}

/// Takes the word that ends arithmetic, where it is next, unless NOT was read.
#[tactic(auto, unfolding(cobol_grammar::specs::stmt_forms::Arms::end_work))]
pub fn end_work(
    cursor: &mut Cursor<'_>,
    verb: ArithmeticVerb,
    pending_not: bool,
) -> Result<(), Unread>
    ensures { Reads ((forms.end_work verb pending_not).reads cursor.old) result cursor.new }
{
    match verb {
        ArithmeticVerb::Add => end_word(cursor, b"END-ADD", pending_not),
        ArithmeticVerb::Subtract => end_word(cursor, b"END-SUBTRACT", pending_not),
        ArithmeticVerb::Multiply => end_word(cursor, b"END-MULTIPLY", pending_not),
        ArithmeticVerb::Divide => end_word(cursor, b"END-DIVIDE", pending_not),
        ArithmeticVerb::Compute => end_word(cursor, b"END-COMPUTE", pending_not),
    }
}
