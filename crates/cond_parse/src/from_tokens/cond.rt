//! Conditions.

ghost use Rattle.std.specs.Prelude.{◌≤◌, Bool, IfErr, IfOk, List, length};
ghost use Rattle.cob_tree.specs.declared.cond.Cond.{Cond};
ghost use Rattle.parser_combinators.specs.Form.{Input};
ghost use Rattle.cobol_lex.specs.declared.token.Token.{Token};
ghost use Rattle.parser_combinators.specs.declared.why.Why.{Why};
ghost use Rattle.parser_combinators.specs.Reading.{Stops, fault_line, start_at};
ghost use Rattle.cobol_grammar.specs.cond_forms.Condition.{whole_cond};
ghost use Rattle.parser_combinators.specs.faults.Fault.{stop_error};
ghost use Rattle.cond_parse.specs.from_tokens.Answer.{Gives, IsCond, IsFault, Refuses, Spelled};

use crate::from_tokens::answer::{CondPart, noted_fault, unread};
use crate::whole_cond;
use cob_tree::ParseError;
use cobol_lex::Token;
use parser_combinators::faults::stop_error;
use parser_combinators::{Cursor, Unread};
use std::alloc::Global;
use symbol_tables::data_names::NameTable;

/// The condition that these tokens spell after the first `from` of them.
pub fn parse_cond(
    alloc: Global,
    tokens: &[Token],
    from: usize,
    names: &NameTable,
) -> Result<CondPart, ParseError>
    requires { from ≤ length tokens.now }
    ensures found { IfOk result (Spelled (whole_cond names.now) tokens.now from IsCond) }
    ensures only { (cond : Cond × Bool) (behind : Input) →
        (whole_cond names.now).spells (start_at from tokens.now) cond behind →
        Gives IsCond result cond behind }
    ensures fault { IfErr result (IsFault (whole_cond names.now) tokens.now from) }
    ensures stops { (why : Why) (rest : List Token) →
        Stops (whole_cond names.now) (start_at from tokens.now) why rest →
        Refuses result (stop_error why (fault_line tokens.now rest)) }
{
    let mut cursor = Cursor::from_index(tokens, from);
    match whole_cond(alloc, &mut cursor, names) {
        Ok((cond, pending_not)) => {
            let next = cursor.index().saturating_sub(unread(pending_not));
            let fault = noted_fault(cursor.fault());
            Ok(CondPart { cond, next, fault })
        }
        Err(Unread::Stop(why)) => Err(stop_error(why, cursor.fault_line(tokens))),
        Err(Unread::NoMemory) => Err(ParseError::NoMemory),
    }
}
