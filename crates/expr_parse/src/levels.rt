//! What is in parentheses, with so many levels of them left.

ghost use Rattle.parser_combinators.specs.Reading.{Reads};
ghost use Rattle.cobol_grammar.specs.expr_forms.Reference as references;
ghost use Rattle.cobol_grammar.specs.expr_forms.Operand as operands;
ghost use Rattle.cobol_grammar.specs.expr_forms.Levels as knots;
ghost use Rattle.cobol_grammar.specs.expr_forms.Levels.{inner};

use crate::actions::{at_operand, both_behind, count_terms, drop_subs, found_fault, ref_side};
use crate::context::ExprContext;
use crate::expression::{expr, in_nested, literal_operand};
use crate::front::in_suffix;
use crate::reference::qualifiers;
use crate::window::in_window;
use cob_base::limit::MAX_PARENS;
use cob_base::{Items, Word};
use cob_tree::Window;
use cobol_grammar::expr_forms::{RefSuffixes, Side, Suffix};
use parser_combinators::words::{name, sees_name};
use parser_combinators::{Cursor, Position, Unread, Why};
use std::alloc::Global;
use symbol_tables::data_names::{NameTable, Referent};

/// Reads an expression in parentheses, where a level is left.
#[cycle(exprs)]
pub fn nested(
    cursor: &mut Cursor<'_>,
    context: ExprContext<'_>,
    count: u32,
) -> Result<(Side, u32), Unread>
    ensures { Reads (((inner context.entry.names.now context.entry.levels).nested count).reads
        cursor.old) result cursor.new }
{
    if context.levels == 0 {
        let begins = cursor.sees_mark(b'(');
        return Err(cursor.too_deep(Why::Parens, begins));
    }
    let within = ExprContext {
        levels: context.levels - 1,
        ..context
    };
    in_nested(cursor, within, count)
}

/// Reads subscripts or a window, where a level is left.
#[cycle(exprs)]
pub fn suffix(
    cursor: &mut Cursor<'_>,
    context: ExprContext<'_>,
    count: u32,
) -> Result<(Suffix, u32), Unread>
    ensures { Reads (((inner context.entry.names.now context.entry.levels).suffix count).reads
        cursor.old) result cursor.new }
{
    if context.levels == 0 {
        let begins = cursor.sees_mark(b'(');
        return Err(cursor.too_deep(Why::Parens, begins));
    }
    let within = ExprContext {
        levels: context.levels - 1,
        ..context
    };
    in_suffix(cursor, within, false, count)
}

/// Reads a window, where a level is left.
#[cycle(exprs)]
pub fn window(
    cursor: &mut Cursor<'_>,
    context: ExprContext<'_>,
    count: u32,
) -> Result<(Window, u32), Unread>
    ensures { Reads (((inner context.entry.names.now context.entry.levels).window count).reads
        cursor.old) result cursor.new }
{
    if context.levels == 0 {
        let begins = cursor.sees_mark(b'(');
        return Err(cursor.too_deep(Why::Parens, begins));
    }
    let within = ExprContext {
        levels: context.levels - 1,
        ..context
    };
    in_window(cursor, within, false, count)
}

#[tactic(auto, unfolding(cobol_grammar::specs::expr_forms::Reference::behind))]
fn data_behind(
    alloc: Global,
    cursor: &mut Cursor<'_>,
    names: &NameTable,
    count: u32,
) -> Result<RefSuffixes, Unread>
    ensures { Reads ((references.behind (knots.outer names.now) count).reads cursor.old)
        result cursor.new }
{
    let context = ExprContext {
        alloc,
        names,
        levels: MAX_PARENS,
    };
    if !cursor.sees_mark(b'(') {
        return Ok(RefSuffixes {
            subs: Items::new(alloc),
            window: None,
            count,
        });
    }
    let (found, count) = in_suffix(cursor, context, true, count)?;
    match found {
        Suffix::Window(window) => Ok(RefSuffixes {
            subs: Items::new(alloc),
            window: Some(window),
            count,
        }),
        Suffix::Subs(subs) => {
            if cursor.sees_mark(b'(') {
                match in_window(cursor, context, true, count) {
                    Ok((inner, count)) => Ok(both_behind(alloc, subs, inner, count)?),
                    Err(stop) => {
                        drop_subs(subs);
                        Err(stop)
                    }
                }
            } else {
                Ok(RefSuffixes {
                    subs,
                    window: None,
                    count,
                })
            }
        }
    }
}

#[tactic(auto, unfolding(cobol_grammar::specs::expr_forms::Reference::ref_behind))]
fn data_ref_behind(
    alloc: Global,
    cursor: &mut Cursor<'_>,
    names: &NameTable,
    found: Referent,
    of: Items<Word>,
    position: Position,
    count: u32,
) -> Result<(Side, u32), Unread>
    ensures { Reads ((references.ref_behind (knots.outer names.now) found of position count).reads
        cursor.old) result cursor.new }
{
    let RefSuffixes {
        subs,
        window,
        count,
    } = data_behind(alloc, cursor, names, count)?;
    cursor.note(found_fault(found, subs.len(), window.is_some(), position));
    Ok((ref_side(found, of, subs, window, position), count))
}

#[tactic(auto, unfolding(cobol_grammar::specs::expr_forms::Reference::reference_behind))]
fn data_words_behind(
    alloc: Global,
    cursor: &mut Cursor<'_>,
    names: &NameTable,
    first: Word,
    position: Position,
    count: u32,
) -> Result<(Side, u32), Unread>
    ensures { Reads ((references.reference_behind names.now (knots.outer names.now) first position
        count).reads cursor.old) result cursor.new }
{
    let of = qualifiers(alloc, cursor)?;
    let found = names.look(&first, of.as_slice());
    data_ref_behind(alloc, cursor, names, found, of, position, count)
}

#[tactic(auto, unfolding(cobol_grammar::specs::expr_forms::Reference::reference))]
fn data_words(
    alloc: Global,
    cursor: &mut Cursor<'_>,
    names: &NameTable,
    count: u32,
) -> Result<(Side, u32), Unread>
    ensures { Reads ((references.reference names.now (knots.outer names.now) count).reads
        cursor.old) result cursor.new }
{
    let (first, position) = name(cursor)?;
    data_words_behind(alloc, cursor, names, first, position, count)
}

#[tactic(auto, unfolding(cobol_grammar::specs::expr_forms::Operand::operand))]
fn data_value(
    alloc: Global,
    cursor: &mut Cursor<'_>,
    names: &NameTable,
    count: u32,
) -> Result<(Side, u32), Unread>
    ensures { Reads ((operands.operand names.now (knots.outer names.now) count).reads cursor.old)
        result cursor.new }
{
    if !at_operand(cursor) {
        return Err(Unread::Stop(Why::Syntax));
    }
    let count = count_terms(cursor, count, 1)?;
    if sees_name(cursor) {
        data_words(alloc, cursor, names, count)
    } else {
        literal_operand(alloc, cursor, count)
    }
}

/// Reads a reference outside of any expression.
#[tactic(auto, unfolding(cobol_grammar::specs::expr_forms::Levels::data_reference))]
pub fn data_reference(
    alloc: Global,
    cursor: &mut Cursor<'_>,
    names: &NameTable,
) -> Result<Side, Unread>
    ensures { Reads ((knots.data_reference names.now).reads cursor.old) result cursor.new }
{
    let (side, _) = data_words(alloc, cursor, names, 0)?;
    Ok(side)
}

/// Reads a reference outside of any expression, after its first word, which is at this position.
#[tactic(auto, unfolding(cobol_grammar::specs::expr_forms::Levels::data_reference_behind))]
pub fn data_reference_behind(
    alloc: Global,
    cursor: &mut Cursor<'_>,
    names: &NameTable,
    first: Word,
    position: Position,
) -> Result<Side, Unread>
    ensures { Reads ((knots.data_reference_behind names.now first position).reads cursor.old)
        result cursor.new }
{
    let (side, _) = data_words_behind(alloc, cursor, names, first, position, 0)?;
    Ok(side)
}

/// Reads a reference or a literal outside of any expression.
#[tactic(auto, unfolding(cobol_grammar::specs::expr_forms::Levels::data_operand))]
pub fn data_operand(
    alloc: Global,
    cursor: &mut Cursor<'_>,
    names: &NameTable,
) -> Result<Side, Unread>
    ensures { Reads ((knots.data_operand names.now).reads cursor.old) result cursor.new }
{
    let (side, _) = data_value(alloc, cursor, names, 0)?;
    Ok(side)
}

/// Reads an expression that no other one holds.
#[tactic(auto, unfolding(cobol_grammar::specs::expr_forms::Levels::whole_expr))]
pub fn whole_expr(alloc: Global, cursor: &mut Cursor<'_>, names: &NameTable) -> Result<Side, Unread>
    ensures { Reads ((knots.whole_expr names.now).reads cursor.old) result cursor.new }
{
    let context = ExprContext {
        alloc,
        names,
        levels: MAX_PARENS,
    };
    let (side, _) = expr(cursor, context, 0)?;
    Ok(side)
}
