//! References.

ghost use Rattle.parser_combinators.specs.Reading.{Reads};
ghost use Rattle.cobol_grammar.specs.expr_forms.Reference as references;
ghost use Rattle.cobol_grammar.specs.expr_forms.Levels.{inner};

use crate::actions::{at_of, both_behind, drop_subs, found_fault, ref_side};
use crate::context::ExprContext;
use crate::levels::{suffix, window};
use cob_base::{Items, Word};
use cobol_grammar::expr_forms::{RefSuffixes, Side, Suffix};
use parser_combinators::words::name;
use parser_combinators::{Cursor, Position, Unread};
use std::alloc::Global;
use symbol_tables::data_names::Referent;

#[tactic(auto, unfolding(cobol_grammar::specs::expr_forms::Reference::qualifier))]
fn qualifier(cursor: &mut Cursor<'_>) -> Result<Word, Unread>
    ensures { Reads (references.qualifier.reads cursor.old) result cursor.new }
{
    if cursor.sees(b"OF") {
        cursor.key(b"OF")?;
    } else {
        cursor.key(b"IN")?;
    }
    let (word, _) = name(cursor)?;
    Ok(word)
}

/// Takes the qualifiers after a name, as many as there are.
pub fn qualifiers(alloc: Global, cursor: &mut Cursor<'_>) -> Result<Items<Word>, Unread>
    ensures { Reads (references.qualifiers.reads cursor.old) result cursor.new }
{
    let mut found = Items::new(alloc);
    'words: while at_of(cursor) {
        found.push(qualifier(cursor)?)?;
    }
    Ok(found)
}

#[cycle(exprs)]
#[tactic(auto, unfolding(cobol_grammar::specs::expr_forms::Reference::behind))]
fn behind(
    cursor: &mut Cursor<'_>,
    context: ExprContext<'_>,
    count: u32,
) -> Result<RefSuffixes, Unread>
    ensures { Reads ((references.behind (inner context.entry.names.now context.entry.levels)
        count).reads cursor.old) result cursor.new }
{
    if !cursor.sees_mark(b'(') {
        return Ok(RefSuffixes {
            subs: Items::new(context.alloc),
            window: None,
            count,
        });
    }
    let (found, count) = suffix(cursor, context, count)?;
    match found {
        Suffix::Window(window) => Ok(RefSuffixes {
            subs: Items::new(context.alloc),
            window: Some(window),
            count,
        }),
        Suffix::Subs(subs) => {
            if cursor.sees_mark(b'(') {
                match window(cursor, context, count) {
                    Ok((inner, count)) => Ok(both_behind(context.alloc, subs, inner, count)?),
                    Err(stop) => {
                        drop_subs(subs);
                        Err(stop)
                    }
                }
            } else {
                Ok(RefSuffixes {
                    subs,
                    window: None,
                    count,
                })
            }
        }
    }
}

/// Reads what comes after the words of a reference.
#[cycle(exprs)]
#[tactic(auto, unfolding(cobol_grammar::specs::expr_forms::Reference::ref_behind))]
pub fn ref_behind(
    cursor: &mut Cursor<'_>,
    context: ExprContext<'_>,
    found: Referent,
    of: Items<Word>,
    position: Position,
    count: u32,
) -> Result<(Side, u32), Unread>
    ensures { Reads ((references.ref_behind (inner context.entry.names.now context.entry.levels)
        found of position count).reads cursor.old) result cursor.new }
{
    let RefSuffixes {
        subs,
        window,
        count,
    } = behind(cursor, context, count)?;
    cursor.note(found_fault(found, subs.len(), window.is_some(), position));
    Ok((ref_side(found, of, subs, window, position), count))
}

/// Reads a reference after its first word.
#[cycle(exprs)]
#[tactic(auto, unfolding(cobol_grammar::specs::expr_forms::Reference::reference_behind))]
pub fn reference_behind(
    cursor: &mut Cursor<'_>,
    context: ExprContext<'_>,
    first: Word,
    position: Position,
    count: u32,
) -> Result<(Side, u32), Unread>
    ensures { Reads ((references.reference_behind context.entry.names.now (inner
        context.entry.names.now context.entry.levels) first position count).reads cursor.old)
        result cursor.new }
{
    let of = qualifiers(context.alloc, cursor)?;
    let found = context.names.look(&first, of.as_slice());
    ref_behind(cursor, context, found, of, position, count)
}

/// Reads a reference.
#[cycle(exprs)]
#[tactic(auto, unfolding(cobol_grammar::specs::expr_forms::Reference::reference))]
pub fn reference(
    cursor: &mut Cursor<'_>,
    context: ExprContext<'_>,
    count: u32,
) -> Result<(Side, u32), Unread>
    ensures { Reads ((references.reference context.entry.names.now (inner context.entry.names.now
        context.entry.levels) count).reads cursor.old) result cursor.new }
{
    let (first, position) = name(cursor)?;
    reference_behind(cursor, context, first, position, count)
}
