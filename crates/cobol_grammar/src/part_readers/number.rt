//! Operands that are numbers.

ghost use Rattle.parser_combinators.specs.Reading.{Reads};
ghost use Rattle.cobol_grammar.specs.stmt_forms.Arithmetic as forms;

use crate::part_readers::parts::Parts;
use cob_tree::Operand;
use parser_combinators::{Cursor, Unread};
use std::alloc::Global;

/// Reads an operand that is a number.
#[tactic(auto, unfolding(crate::specs::stmt_forms::Arithmetic::number_operand))]
pub fn number_operand<P: Parts>(
    parts: &P,
    alloc: Global,
    cursor: &mut Cursor<'_>,
) -> Result<Operand, Unread>
    ensures { Reads ((forms.number_operand (P.parts parts.now)).reads cursor.old)
        result cursor.new }
{
    let side = parts.operand(alloc, cursor)?;
    cursor.note(parts.number_fault(&side));
    Ok(parts.operand_of(side))
}
