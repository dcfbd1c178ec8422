//! Expressions.

ghost use Rattle.std.specs.Prelude.{◌≤◌, IfErr, IfOk, List, length};
ghost use Rattle.parser_combinators.specs.Form.{Input};
ghost use Rattle.cobol_lex.specs.declared.token.Token.{Token};
ghost use Rattle.parser_combinators.specs.declared.why.Why.{Why};
ghost use Rattle.parser_combinators.specs.Reading.{Stops, fault_line, start_at};
ghost use Rattle.cobol_grammar.specs.declared.expr_forms.side.Side.{Side};
ghost use Rattle.cobol_grammar.specs.expr_forms.Levels.{whole_expr};
ghost use Rattle.parser_combinators.specs.faults.Fault.{stop_error};
ghost use Rattle.cond_parse.specs.from_tokens.Answer.{Gives, IsExpr, IsFault, Refuses, Spelled};

use crate::from_tokens::answer::{ExprPart, noted_fault};
use cob_tree::ParseError;
use cobol_lex::Token;
use expr_parse::actions::expr_of;
use expr_parse::whole_expr;
use parser_combinators::faults::stop_error;
use parser_combinators::{Cursor, Unread};
use std::alloc::Global;
use symbol_tables::data_names::NameTable;

/// The expression that these tokens spell after the first `from` of them.
pub fn parse_expr(
    alloc: Global,
    tokens: &[Token],
    from: usize,
    names: &NameTable,
) -> Result<ExprPart, ParseError>
    requires { from ≤ length tokens.now }
    ensures found { IfOk result (Spelled (whole_expr names.now) tokens.now from IsExpr) }
    ensures only { (side : Side) (behind : Input) →
        (whole_expr names.now).spells (start_at from tokens.now) side behind →
        Gives IsExpr result side behind }
    ensures fault { IfErr result (IsFault (whole_expr names.now) tokens.now from) }
    ensures stops { (why : Why) (rest : List Token) →
        Stops (whole_expr names.now) (start_at from tokens.now) why rest →
        Refuses result (stop_error why (fault_line tokens.now rest)) }
{
    let mut cursor = Cursor::from_index(tokens, from);
    match whole_expr(alloc, &mut cursor, names) {
        Ok(side) => {
            let next = cursor.index();
            let fault = noted_fault(cursor.fault());
            Ok(ExprPart {
                expr: expr_of(side.what),
                next,
                fault,
            })
        }
        Err(Unread::Stop(why)) => Err(stop_error(why, cursor.fault_line(tokens))),
        Err(Unread::NoMemory) => Err(ParseError::NoMemory),
    }
}
