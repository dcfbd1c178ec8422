//! What the next token is.

ghost use Rattle.std.specs.Prelude.{◌≡◌};
ghost use Rattle.cob_base.specs.Bytes.{colon};
ghost use Rattle.parser_combinators.specs.Form as form;
ghost use Rattle.parser_combinators.specs.Part.{is_mark};
ghost use Rattle.parser_combinators.specs.Reading.{Reads};
ghost use Rattle.cobol_grammar.specs.expr_forms.Token as tokens;

use cob_tree::Op;
use cobol_lex::TokenKind;
use parser_combinators::words::{sees_literal, sees_name};
use parser_combinators::{Cursor, Unread, Why};

/// Whether OF or IN is next.
#[tactic(auto, unfolding(cobol_grammar::specs::expr_forms::Token::is_of))]
pub fn at_of(cursor: &Cursor<'_>) -> bool
    ensures { result ≡ form.is_next tokens.is_of cursor.now }
{
    cursor.sees(b"OF") || cursor.sees(b"IN")
}

/// Whether an operand is next.
#[tactic(auto, unfolding(cobol_grammar::specs::expr_forms::Token::begins_operand))]
pub fn at_operand(cursor: &Cursor<'_>) -> bool
    ensures { result ≡ form.is_next tokens.begins_operand cursor.now }
{
    sees_literal(cursor) || sees_name(cursor)
}

/// Whether a colon is next: what comes after the parenthesis is then a window.
pub fn at_colon(cursor: &Cursor<'_>) -> bool
    ensures { result ≡ form.is_next (is_mark colon) cursor.now }
{
    cursor.sees_mark(b':')
}

fn op_of_byte(byte: u8) -> Option<Op>
    ensures { result ≡ tokens.op_of_byte byte }
{
    match byte {
        b'+' => Some(Op::Add),
        b'-' => Some(Op::Sub),
        b'*' => Some(Op::Mul),
        b'/' => Some(Op::Div),
        _ => None,
    }
}

/// Whether an operator of an expression is next.
#[tactic(auto, unfolding(cobol_grammar::specs::expr_forms::Token::begins_turn))]
pub fn at_turn(cursor: &Cursor<'_>) -> bool
    ensures { result ≡ form.is_next tokens.begins_turn cursor.now }
{
    match cursor.peek() {
        Some(TokenKind::Mark(b)) => op_of_byte(*b).is_some(),
        _ => false,
    }
}

/// Takes an operator of an expression.
pub fn operator(cursor: &mut Cursor<'_>) -> Result<Op, Unread>
    ensures { Reads ((form.one (λ position kind. tokens.op_of kind)).reads cursor.old) result
        cursor.new }
{
    let op = match cursor.peek() {
        Some(TokenKind::Mark(b)) => op_of_byte(*b),
        _ => None,
    };
    match op {
        None => Err(Unread::Stop(Why::Syntax)),
        Some(op) => {
            cursor.skip();
            Ok(op)
        }
    }
}
