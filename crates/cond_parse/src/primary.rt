//! Conditions without NOT, AND and OR.

ghost use Rattle.parser_combinators.specs.Reading.{Reads};
ghost use Rattle.cobol_grammar.specs.expr_forms.Levels.{inner};
ghost use Rattle.cobol_grammar.specs.cond_forms.Primary as primaries;

use crate::test::tested;
use crate::test_words::read_test;
use cobol_grammar::cond_forms::{Primary, Read};
use cobol_grammar::expr_forms::Side;
use expr_parse::{ExprContext, sum, unary};
use parser_combinators::{Cursor, Unread};

#[tactic(auto, unfolding(cobol_grammar::specs::cond_forms::Primary::side_prim))]
fn side_prim(
    cursor: &mut Cursor<'_>,
    context: ExprContext<'_>,
    before: u32,
    side: Side,
    count: u32,
) -> Result<Read, Unread>
    ensures { Reads ((primaries.side_prim context.entry.names.now (inner context.entry.names.now
        context.entry.levels) before side count).reads cursor.old) result cursor.new }
{
    let (left, count) = sum(cursor, context, side, count)?;
    tested(cursor, context, left, before, count)
}

/// Decides after parentheses what was in them.
#[tactic(auto, unfolding(cobol_grammar::specs::cond_forms::Primary::prim_behind))]
pub fn prim_behind(
    cursor: &mut Cursor<'_>,
    context: ExprContext<'_>,
    before: u32,
    prim: Primary,
    count: u32,
) -> Result<Read, Unread>
    ensures { Reads ((primaries.prim_behind context.entry.names.now (inner context.entry.names.now
        context.entry.levels) before prim count).reads cursor.old) result cursor.new }
{
    match prim {
        Primary::Test(cond, setting) => {
            drop(setting);
            Ok(read_test(cond, None, count))
        }
        Primary::Alone(side) => side_prim(cursor, context, before, side, count),
    }
}

/// Reads a side and its test.
#[tactic(auto, unfolding(cobol_grammar::specs::cond_forms::Primary::expr_prim))]
pub fn expr_prim(
    cursor: &mut Cursor<'_>,
    context: ExprContext<'_>,
    count: u32,
) -> Result<Read, Unread>
    ensures { Reads ((primaries.expr_prim context.entry.names.now (inner context.entry.names.now
        context.entry.levels) count).reads cursor.old) result cursor.new }
{
    let (first, now) = unary(cursor, context, count)?;
    side_prim(cursor, context, count, first, now)
}
