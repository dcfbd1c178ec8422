//! The whole division, with the first fault.

ghost use Rattle.std.specs.Prelude.{◌≡◌, ◌≤◌, List, None, Option, IfErr, IfOk, length};
ghost use Rattle.cob_tree.specs.declared.program.Paragraph.{Paragraph};
ghost use Rattle.parser_combinators.specs.declared.note.Note.{Note};
ghost use Rattle.cobol_grammar.specs.stmt_forms.Paragraph.{division as form};
ghost use Rattle.procedure_parse.specs.Answer as answers;

use crate::drafts::drop_paragraphs;
use crate::paragraph::division;
use cob_base::Items;
use cob_tree::{NameFault, Paragraph, ParseError, ParseFault};
use cobol_grammar::part_readers::Parts;
use cobol_lex::Token;
use parser_combinators::faults::{name_fault, stop_error};
use parser_combinators::{Cursor, Note, Unread};
use std::alloc::Global;

fn first_fault(earlier: Option<NameFault>, noted: Option<Note>) -> Option<NameFault>
    ensures { result ≡ answers.first_fault earlier noted }
{
    match earlier {
        Some(earlier) => Some(earlier),
        None => match noted {
            Some(noted) => Some(name_fault(noted.kind, noted.position.line)),
            None => None,
        },
    }
}

/// The paragraphs that all tokens after the first `from` spell, which are those after the header of
/// the division.
///
/// Where they spell none, the fault has the reason and the line of the first token up to which they
/// begin no division, or of the last token where more are needed. A name fault, which is that of
/// the divisions before or else the first one here, is answered only where the whole syntax has no
/// fault.
pub fn parse_procedure<P: Parts>(
    parts: &P,
    alloc: Global,
    tokens: &[Token],
    from: usize,
    earlier: Option<NameFault>,
) -> Result<Items<Paragraph>, ParseError>
    requires { from ≤ length tokens.now }
    ensures found { IfOk result (λ found.
        answers.Spelled (form (P.parts parts.now)) tokens.now from found None) }
    ensures only { (found : List Paragraph) (noted : Option Note) →
        answers.Spelled (form (P.parts parts.now)) tokens.now from found noted →
        answers.Gives earlier result found noted }
    ensures fault { IfErr result
        (λ fault. answers.IsFault (form (P.parts parts.now)) tokens.now from earlier fault) }
{
    let mut cursor = Cursor::from_index(tokens, from);
    match division(parts, alloc, &mut cursor) {
        Ok(found) => match first_fault(earlier, cursor.fault()) {
            None => Ok(found),
            Some(fault) => {
                drop_paragraphs(found);
                Err(ParseError::Fault(ParseFault::Name(fault)))
            }
        },
        Err(Unread::Stop(why)) => Err(stop_error(why, cursor.fault_line(tokens))),
        Err(Unread::NoMemory) => Err(ParseError::NoMemory),
    }
}
