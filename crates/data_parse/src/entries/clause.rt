//! Clauses of a data description entry.

ghost use Rattle.std.specs.Prelude.{◌≡◌};
ghost use Rattle.parser_combinators.specs.Form as form;
ghost use Rattle.parser_combinators.specs.Reading.{Reads};
ghost use Rattle.parser_combinators.specs.words.Constant.{begins_literal};
ghost use Rattle.cobol_grammar.specs.data_forms.Clause as clauses;

use crate::entries::choice::{either, maybe_either, sees_either};
use crate::entries::lists::pushed;
use cob_base::Items;
use cob_tree::Usage;
use cobol_grammar::data_forms::{Clause, SpanDraft, ThruDraft};
use parser_combinators::words::{literal, name, sees_literal};
use parser_combinators::{Cursor, Position, Unread};
use std::alloc::Global;

#[tactic(auto, unfolding(cobol_grammar::specs::data_forms::Clause::redefines_clause))]
fn redefines_clause(cursor: &mut Cursor<'_>) -> Result<Clause, Unread>
    ensures { Reads (clauses.redefines_clause.reads cursor.old) result cursor.new }
{
    let at = cursor.key(b"REDEFINES")?;
    let (name, name_at) = name(cursor)?;
    Ok(Clause::Redefines { at, name, name_at })
}

fn sees_pic(cursor: &Cursor<'_>) -> bool
    ensures { result ≡ form.is_next clauses.is_pic cursor.now }
{
    sees_either(cursor, b"PIC", b"PICTURE")
}

#[tactic(auto, unfolding(cobol_grammar::specs::data_forms::Clause::picture_clause))]
fn picture_clause(alloc: Global, cursor: &mut Cursor<'_>) -> Result<Clause, Unread>
    ensures { Reads (clauses.picture_clause.reads cursor.old) result cursor.new }
{
    let at = either(cursor, b"PIC", b"PICTURE")?;
    cursor.maybe(b"IS");
    let (text, text_at) = cursor.picture(alloc)?;
    Ok(Clause::Picture { at, text, text_at })
}

fn sees_binary(cursor: &Cursor<'_>) -> bool
    ensures { result ≡ form.is_next clauses.is_binary cursor.now }
{
    cursor.sees(b"BINARY") || sees_either(cursor, b"COMP", b"COMPUTATIONAL")
}

fn sees_packed(cursor: &Cursor<'_>) -> bool
    ensures { result ≡ form.is_next clauses.is_packed cursor.now }
{
    cursor.sees(b"PACKED-DECIMAL") || sees_either(cursor, b"COMP-3", b"COMPUTATIONAL-3")
}

fn sees_usage(cursor: &Cursor<'_>) -> bool
    ensures { result ≡ form.is_next clauses.is_usage cursor.now }
{
    sees_either(cursor, b"USAGE", b"DISPLAY") || (sees_binary(cursor) || sees_packed(cursor))
}

#[tactic(auto, unfolding(cobol_grammar::specs::data_forms::Clause::binary))]
fn binary(cursor: &mut Cursor<'_>) -> Result<Position, Unread>
    ensures { Reads (clauses.binary.reads cursor.old) result cursor.new }
{
    if cursor.sees(b"BINARY") {
        cursor.key(b"BINARY")
    } else {
        either(cursor, b"COMP", b"COMPUTATIONAL")
    }
}

#[tactic(auto, unfolding(cobol_grammar::specs::data_forms::Clause::packed))]
fn packed(cursor: &mut Cursor<'_>) -> Result<Position, Unread>
    ensures { Reads (clauses.packed.reads cursor.old) result cursor.new }
{
    if cursor.sees(b"PACKED-DECIMAL") {
        cursor.key(b"PACKED-DECIMAL")
    } else {
        either(cursor, b"COMP-3", b"COMPUTATIONAL-3")
    }
}

#[tactic(auto, unfolding(cobol_grammar::specs::data_forms::Clause::usage))]
fn usage(cursor: &mut Cursor<'_>) -> Result<(Usage, Position), Unread>
    ensures { Reads (clauses.usage.reads cursor.old) result cursor.new }
{
    if sees_binary(cursor) {
        let at = binary(cursor)?;
        Ok((Usage::Binary, at))
    } else if sees_packed(cursor) {
        let at = packed(cursor)?;
        Ok((Usage::Packed, at))
    } else {
        let at = cursor.key(b"DISPLAY")?;
        Ok((Usage::Display, at))
    }
}

#[tactic(auto, unfolding(cobol_grammar::specs::data_forms::Clause::usage_behind))]
fn usage_behind(cursor: &mut Cursor<'_>, at: Position) -> Result<Clause, Unread>
    ensures { Reads ((clauses.usage_behind at).reads cursor.old) result cursor.new }
{
    cursor.maybe(b"IS");
    let (usage, _) = usage(cursor)?;
    Ok(Clause::Usage { at, usage })
}

#[tactic(auto, unfolding(cobol_grammar::specs::data_forms::Clause::usage_alone))]
fn usage_alone(cursor: &mut Cursor<'_>) -> Result<Clause, Unread>
    ensures { Reads (clauses.usage_alone.reads cursor.old) result cursor.new }
{
    let (usage, at) = usage(cursor)?;
    Ok(Clause::Usage { at, usage })
}

#[tactic(auto, unfolding(cobol_grammar::specs::data_forms::Clause::usage_clause))]
fn usage_clause(cursor: &mut Cursor<'_>) -> Result<Clause, Unread>
    ensures { Reads (clauses.usage_clause.reads cursor.old) result cursor.new }
{
    if cursor.sees(b"USAGE") {
        let at = cursor.key(b"USAGE")?;
        usage_behind(cursor, at)
    } else {
        usage_alone(cursor)
    }
}

fn sees_side(cursor: &Cursor<'_>) -> bool
    ensures { result ≡ form.is_next clauses.is_side cursor.now }
{
    sees_either(cursor, b"LEADING", b"TRAILING")
}

fn sees_sign(cursor: &Cursor<'_>) -> bool
    ensures { result ≡ form.is_next clauses.is_sign cursor.now }
{
    cursor.sees(b"SIGN") || sees_side(cursor)
}

#[tactic(auto, unfolding(cobol_grammar::specs::data_forms::Clause::side))]
fn side(cursor: &mut Cursor<'_>) -> Result<(bool, Position), Unread>
    ensures { Reads (clauses.side.reads cursor.old) result cursor.new }
{
    if cursor.sees(b"LEADING") {
        let at = cursor.key(b"LEADING")?;
        Ok((true, at))
    } else {
        let at = cursor.key(b"TRAILING")?;
        Ok((false, at))
    }
}

#[tactic(auto, unfolding(cobol_grammar::specs::data_forms::Clause::separate))]
fn separate(cursor: &mut Cursor<'_>) -> Result<bool, Unread>
    ensures { Reads (clauses.separate.reads cursor.old) result cursor.new }
{
    if cursor.sees(b"SEPARATE") {
        cursor.key(b"SEPARATE")?;
        cursor.maybe(b"CHARACTER");
        Ok(true)
    } else {
        Ok(false)
    }
}

#[tactic(auto, unfolding(cobol_grammar::specs::data_forms::Clause::sign_behind))]
fn sign_behind(cursor: &mut Cursor<'_>, at: Position) -> Result<Clause, Unread>
    ensures { Reads ((clauses.sign_behind at).reads cursor.old) result cursor.new }
{
    cursor.maybe(b"IS");
    let (leading, _) = side(cursor)?;
    let separate = separate(cursor)?;
    Ok(Clause::Sign {
        at,
        leading,
        separate,
    })
}

#[tactic(auto, unfolding(cobol_grammar::specs::data_forms::Clause::side_clause))]
fn side_clause(cursor: &mut Cursor<'_>) -> Result<Clause, Unread>
    ensures { Reads (clauses.side_clause.reads cursor.old) result cursor.new }
{
    let (leading, at) = side(cursor)?;
    let separate = separate(cursor)?;
    Ok(Clause::Sign {
        at,
        leading,
        separate,
    })
}

#[tactic(auto, unfolding(cobol_grammar::specs::data_forms::Clause::sign_clause))]
fn sign_clause(cursor: &mut Cursor<'_>) -> Result<Clause, Unread>
    ensures { Reads (clauses.sign_clause.reads cursor.old) result cursor.new }
{
    if cursor.sees(b"SIGN") {
        let at = cursor.key(b"SIGN")?;
        sign_behind(cursor, at)
    } else {
        side_clause(cursor)
    }
}

#[tactic(auto, unfolding(cobol_grammar::specs::data_forms::Clause::occurs_clause))]
fn occurs_clause(alloc: Global, cursor: &mut Cursor<'_>) -> Result<Clause, Unread>
    ensures { Reads (clauses.occurs_clause.reads cursor.old) result cursor.new }
{
    let at = cursor.key(b"OCCURS")?;
    let (count, count_at) = cursor.digits(alloc)?;
    cursor.maybe(b"TIMES");
    Ok(Clause::Occurs {
        at,
        count,
        count_at,
    })
}

fn sees_value(cursor: &Cursor<'_>) -> bool
    ensures { result ≡ form.is_next clauses.is_value cursor.now }
{
    sees_either(cursor, b"VALUE", b"VALUES")
}

fn sees_thru(cursor: &Cursor<'_>) -> bool
    ensures { result ≡ form.is_next clauses.is_thru cursor.now }
{
    sees_either(cursor, b"THRU", b"THROUGH")
}

#[tactic(auto, unfolding(cobol_grammar::specs::data_forms::Clause::thru))]
fn thru(alloc: Global, cursor: &mut Cursor<'_>) -> Result<ThruDraft, Unread>
    ensures { Reads (clauses.thru.reads cursor.old) result cursor.new }
{
    let at = either(cursor, b"THRU", b"THROUGH")?;
    let (to, to_at) = literal(alloc, cursor)?;
    Ok(ThruDraft { at, to, to_at })
}

#[tactic(auto, unfolding(cobol_grammar::specs::data_forms::Clause::maybe_thru))]
fn maybe_thru(alloc: Global, cursor: &mut Cursor<'_>) -> Result<Option<ThruDraft>, Unread>
    ensures { Reads (clauses.maybe_thru.reads cursor.old) result cursor.new }
{
    if sees_thru(cursor) {
        Ok(Some(thru(alloc, cursor)?))
    } else {
        Ok(None)
    }
}

#[tactic(auto, unfolding(cobol_grammar::specs::data_forms::Clause::span))]
fn span(alloc: Global, cursor: &mut Cursor<'_>) -> Result<SpanDraft, Unread>
    ensures { Reads (clauses.span.reads cursor.old) result cursor.new }
{
    let (from, from_at) = literal(alloc, cursor)?;
    match maybe_thru(alloc, cursor) {
        Ok(thru) => Ok(SpanDraft {
            from,
            from_at,
            thru,
        }),
        Err(stop) => {
            drop(from);
            Err(stop)
        }
    }
}

/// Reads one more value.
fn span_behind(
    alloc: Global,
    cursor: &mut Cursor<'_>,
    found: Items<SpanDraft>,
) -> Result<Items<SpanDraft>, Unread>
    ensures { Reads ((form.added clauses.span found).reads cursor.old) result cursor.new }
{
    match span(alloc, cursor) {
        Ok(next) => Ok(pushed(found, next)?),
        Err(stop) => {
            drop(found);
            Err(stop)
        }
    }
}

fn spans_from(
    alloc: Global,
    cursor: &mut Cursor<'_>,
    mut found: Items<SpanDraft>,
) -> Result<Items<SpanDraft>, Unread>
    ensures { Reads ((form.loop begins_literal (form.added clauses.span) found).reads cursor.old)
        result cursor.new }
{
    'items: while sees_literal(cursor) {
        found = span_behind(alloc, cursor, found)?;
    }
    Ok(found)
}

#[tactic(auto, unfolding(cobol_grammar::specs::data_forms::Clause::spans))]
fn spans(alloc: Global, cursor: &mut Cursor<'_>) -> Result<Items<SpanDraft>, Unread>
    ensures { Reads (clauses.spans.reads cursor.old) result cursor.new }
{
    let first = span(alloc, cursor)?;
    let found = pushed(Items::new(alloc), first)?;
    spans_from(alloc, cursor, found)
}

#[tactic(auto, unfolding(cobol_grammar::specs::data_forms::Clause::value_clause))]
fn value_clause(alloc: Global, cursor: &mut Cursor<'_>) -> Result<Clause, Unread>
    ensures { Reads (clauses.value_clause.reads cursor.old) result cursor.new }
{
    let at = either(cursor, b"VALUE", b"VALUES")?;
    maybe_either(cursor, b"IS", b"ARE")?;
    let spans = spans(alloc, cursor)?;
    Ok(Clause::Value { at, spans })
}

/// Whether a clause is next.
#[tactic(auto, unfolding(cobol_grammar::specs::data_forms::Clause::begins_clause))]
pub fn sees_clause(cursor: &Cursor<'_>) -> bool
    ensures { result ≡ form.is_next clauses.begins_clause cursor.now }
{
    cursor.sees(b"REDEFINES")
        || sees_pic(cursor)
        || sees_usage(cursor)
        || sees_sign(cursor)
        || cursor.sees(b"OCCURS")
        || sees_value(cursor)
}

#[tactic(auto, unfolding(cobol_grammar::specs::data_forms::Clause::counted_clause))]
fn counted_clause(alloc: Global, cursor: &mut Cursor<'_>) -> Result<Clause, Unread>
    ensures { Reads (clauses.counted_clause.reads cursor.old) result cursor.new }
{
    if cursor.sees(b"OCCURS") {
        occurs_clause(alloc, cursor)
    } else {
        value_clause(alloc, cursor)
    }
}

#[tactic(auto, unfolding(cobol_grammar::specs::data_forms::Clause::stored_clause))]
fn stored_clause(alloc: Global, cursor: &mut Cursor<'_>) -> Result<Clause, Unread>
    ensures { Reads (clauses.stored_clause.reads cursor.old) result cursor.new }
{
    if sees_usage(cursor) {
        usage_clause(cursor)
    } else if sees_sign(cursor) {
        sign_clause(cursor)
    } else {
        counted_clause(alloc, cursor)
    }
}

/// Takes a clause.
#[tactic(auto, unfolding(cobol_grammar::specs::data_forms::Clause::clause))]
pub fn clause(alloc: Global, cursor: &mut Cursor<'_>) -> Result<Clause, Unread>
    ensures { Reads (clauses.clause.reads cursor.old) result cursor.new }
{
    if cursor.sees(b"REDEFINES") {
        redefines_clause(cursor)
    } else if sees_pic(cursor) {
        picture_clause(alloc, cursor)
    } else {
        stored_clause(alloc, cursor)
    }
}
