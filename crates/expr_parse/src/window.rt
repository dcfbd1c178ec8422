//! Windows.

ghost use Rattle.std.specs.Prelude.{◌≡◌};
ghost use Rattle.parser_combinators.specs.Reading.{Reads};
ghost use Rattle.cobol_grammar.specs.expr_forms.Window as windows;
ghost use Rattle.cobol_grammar.specs.expr_forms.Levels.{inner};

use crate::actions::{drop_side, drop_window, expr_of, whole_fault};
use crate::context::ExprContext;
use crate::expression::expr;
use cob_tree::{Expr, Window};
use cobol_grammar::expr_forms::Side;
use parser_combinators::{Cursor, Unread};

/// The count of terms where a window's second expression begins.
fn second_count(alone: bool, count: u32) -> u32
    ensures { result ≡ windows.second_count alone count }
{
    if alone { 0 } else { count }
}

#[cycle(exprs)]
#[tactic(auto, unfolding(cobol_grammar::specs::expr_forms::Window::length_part))]
fn length_part(
    cursor: &mut Cursor<'_>,
    context: ExprContext<'_>,
    count: u32,
) -> Result<(Option<Expr>, u32), Unread>
    ensures { Reads ((windows.length_part context.entry.names.now (inner context.entry.names.now
        context.entry.levels) count).reads cursor.old) result cursor.new }
{
    if cursor.sees_mark(b')') {
        Ok((None, count))
    } else {
        let (side, count) = expr(cursor, context, count)?;
        cursor.note(whole_fault(&side));
        Ok((Some(expr_of(side.what)), count))
    }
}

/// Goes on after the first expression of a window.
#[cycle(exprs)]
#[tactic(auto, unfolding(cobol_grammar::specs::expr_forms::Window::window_behind))]
pub fn window_behind(
    cursor: &mut Cursor<'_>,
    context: ExprContext<'_>,
    alone: bool,
    first: Side,
    count: u32,
) -> Result<(Window, u32), Unread>
    ensures { Reads ((windows.window_behind context.entry.names.now (inner context.entry.names.now
        context.entry.levels) alone first count).reads cursor.old) result cursor.new }
{
    if let Err(stop) = cursor.mark(b':') {
        drop_side(first);
        return Err(stop);
    }
    cursor.note(whole_fault(&first));
    match length_part(cursor, context, second_count(alone, count)) {
        Ok((length, count)) => {
            let from = expr_of(first.what);
            let window = Window { from, length };
            match cursor.mark(b')') {
                Ok(_) => Ok((window, count)),
                Err(stop) => {
                    drop_window(window);
                    Err(stop)
                }
            }
        }
        Err(stop) => {
            drop_side(first);
            Err(stop)
        }
    }
}

/// Reads a window.
#[cycle(exprs)]
#[tactic(auto, unfolding(cobol_grammar::specs::expr_forms::Window::in_window))]
pub fn in_window(
    cursor: &mut Cursor<'_>,
    context: ExprContext<'_>,
    alone: bool,
    count: u32,
) -> Result<(Window, u32), Unread>
    ensures { Reads ((windows.in_window context.entry.names.now (inner context.entry.names.now
        context.entry.levels) alone count).reads cursor.old) result cursor.new }
{
    cursor.mark(b'(')?;
    let (first, count) = expr(cursor, context, count)?;
    window_behind(cursor, context, alone, first, count)
}
