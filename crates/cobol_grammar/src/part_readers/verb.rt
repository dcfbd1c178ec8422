//! Which tokens begin which statements.

ghost use Rattle.std.specs.Prelude.{◌≡◌};
ghost use Rattle.parser_combinators.specs.Form as form;
ghost use Rattle.cobol_grammar.specs.stmt_forms.Verb as forms;

use parser_combinators::Cursor;

/// Whether DISPLAY, MOVE or SET is next.
#[tactic(auto, unfolding(crate::specs::stmt_forms::Verb::begins_moving))]
pub fn at_moving(cursor: &Cursor<'_>) -> bool
    ensures { result ≡ form.is_next forms.begins_moving cursor.now }
{
    cursor.sees(b"DISPLAY") || cursor.sees(b"MOVE") || cursor.sees(b"SET")
}

/// Whether OPEN, CLOSE, WRITE or REWRITE is next.
#[tactic(auto, unfolding(crate::specs::stmt_forms::Verb::begins_filing))]
pub fn at_filing(cursor: &Cursor<'_>) -> bool
    ensures { result ≡ form.is_next forms.begins_filing cursor.now }
{
    (cursor.sees(b"OPEN") || cursor.sees(b"CLOSE"))
        || (cursor.sees(b"WRITE") || cursor.sees(b"REWRITE"))
}

/// Whether GO, NEXT, STOP, EXIT or CONTINUE is next.
#[tactic(auto, unfolding(crate::specs::stmt_forms::Verb::begins_jumping))]
pub fn at_jumping(cursor: &Cursor<'_>) -> bool
    ensures { result ≡ form.is_next forms.begins_jumping cursor.now }
{
    (cursor.sees(b"GO") || cursor.sees(b"NEXT"))
        || (cursor.sees(b"STOP") || (cursor.sees(b"EXIT") || cursor.sees(b"CONTINUE")))
}

/// Whether ADD or SUBTRACT is next.
#[tactic(auto, unfolding(crate::specs::stmt_forms::Verb::begins_adding))]
pub fn at_adding(cursor: &Cursor<'_>) -> bool
    ensures { result ≡ form.is_next forms.begins_adding cursor.now }
{
    cursor.sees(b"ADD") || cursor.sees(b"SUBTRACT")
}

/// Whether MULTIPLY or DIVIDE is next.
#[tactic(auto, unfolding(crate::specs::stmt_forms::Verb::begins_multiplying))]
pub fn at_multiplying(cursor: &Cursor<'_>) -> bool
    ensures { result ≡ form.is_next forms.begins_multiplying cursor.now }
{
    cursor.sees(b"MULTIPLY") || cursor.sees(b"DIVIDE")
}

/// Whether a verb of arithmetic is next.
#[tactic(auto, unfolding(crate::specs::stmt_forms::Verb::begins_arithmetic))]
pub fn at_arithmetic(cursor: &Cursor<'_>) -> bool
    ensures { result ≡ form.is_next forms.begins_arithmetic cursor.now }
{
    at_adding(cursor) || (at_multiplying(cursor) || cursor.sees(b"COMPUTE"))
}

/// Whether IF or EVALUATE is next.
#[tactic(auto, unfolding(crate::specs::stmt_forms::Verb::begins_choice))]
pub fn at_choice(cursor: &Cursor<'_>) -> bool
    ensures { result ≡ form.is_next forms.begins_choice cursor.now }
{
    cursor.sees(b"IF") || cursor.sees(b"EVALUATE")
}

/// Whether a statement is next that holds no other.
#[tactic(auto, unfolding(crate::specs::stmt_forms::Verb::begins_simple))]
pub fn at_simple(cursor: &Cursor<'_>) -> bool
    ensures { result ≡ form.is_next forms.begins_simple cursor.now }
{
    at_moving(cursor) || (at_filing(cursor) || at_jumping(cursor))
}

/// Whether a statement is next that may hold others.
#[tactic(auto, unfolding(crate::specs::stmt_forms::Verb::begins_holding))]
pub fn at_holding(cursor: &Cursor<'_>) -> bool
    ensures { result ≡ form.is_next forms.begins_holding cursor.now }
{
    at_arithmetic(cursor)
        || (cursor.sees(b"READ") || (at_choice(cursor) || cursor.sees(b"PERFORM")))
}

/// Whether a statement is next.
#[tactic(auto, unfolding(crate::specs::stmt_forms::Verb::begins_stmt))]
pub fn at_stmt(cursor: &Cursor<'_>) -> bool
    ensures { result ≡ form.is_next forms.begins_stmt cursor.now }
{
    at_simple(cursor) || at_holding(cursor)
}
