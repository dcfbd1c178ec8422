//! Operands and expressions, as they are read.

ghost use Rattle.std.specs.Prelude.{◌≡◌};
ghost use Rattle.cob_base.specs.Answers.{Makes};
ghost use Rattle.cobol_grammar.specs.expr_forms.Side as sides;

use crate::actions::fault::{is_whole, item_of, kind_of};
use cob_base::{Boxed, Items, NoMemory, Text, Word};
use cob_tree::{Expr, Figure, Number, Operand, Place, SpelledDigits, Sub, Window};
use cobol_grammar::expr_forms::{ExprContent, ExprForm, ParsedExpr, Side, ValueKind};
use parser_combinators::Position;
use std::alloc::Global;
use symbol_tables::data_names::Referent;

fn kind_within(window: &Option<Boxed<Window>>, kind: ValueKind) -> ValueKind
    ensures { result ≡ sides.kind_within window.now kind }
{
    match window {
        None => kind,
        Some(_) => match kind {
            ValueKind::Condition => ValueKind::Condition,
            ValueKind::Unknown => ValueKind::Unknown,
            _ => ValueKind::Text,
        },
    }
}

/// The expression that is read.
pub fn expr_of(what: ParsedExpr) -> Expr
    ensures { result ≡ sides.expr_of what }
{
    match what {
        ParsedExpr::Ref(place) => Expr::Leaf(Operand::Place(place)),
        ParsedExpr::Literal(operand) => Expr::Leaf(operand),
        ParsedExpr::Enclosed(place) => Expr::Leaf(Operand::Place(place)),
        ParsedExpr::Sum(expr) => expr,
    }
}

/// How an expression is written.
pub fn shape_of(side: &Side) -> ExprForm
    ensures { result ≡ sides.shape_of side.now.what }
{
    match &side.what {
        ParsedExpr::Ref(_) => ExprForm::Ref,
        ParsedExpr::Literal(_) => ExprForm::Literal,
        ParsedExpr::Enclosed(_) => ExprForm::Enclosed,
        ParsedExpr::Sum(_) => ExprForm::Sum,
    }
}

/// The place that a reference stands for.
pub fn place_of(
    found: Referent,
    of: Items<Word>,
    subs: Items<Sub>,
    window: Option<Boxed<Window>>,
) -> Place
    ensures { result ≡ sides.place_of found of subs window }
{
    Place {
        item: item_of(found),
        of,
        subs,
        window,
    }
}

/// A reference alone.
#[tactic(auto, unfolding(cobol_grammar::specs::expr_forms::Side::ref_side))]
pub fn ref_side(
    found: Referent,
    of: Items<Word>,
    subs: Items<Sub>,
    window: Option<Boxed<Window>>,
    position: Position,
) -> Side
    ensures { result ≡ sides.ref_side found of subs window position }
{
    let kind = kind_within(&window, kind_of(found));
    Side {
        what: ParsedExpr::Ref(place_of(found, of, subs, window)),
        kind,
        make: ExprContent::Item,
        position,
        leaf: position,
    }
}

/// A literal alone.
#[tactic(auto, unfolding(cobol_grammar::specs::expr_forms::Side::literal_side))]
pub fn literal_side(operand: Operand, kind: ValueKind, position: Position) -> Side
    ensures { result ≡ sides.literal_side operand kind position }
{
    Side {
        what: ParsedExpr::Literal(operand),
        kind,
        make: ExprContent::Literal,
        position,
        leaf: position,
    }
}

/// The number of these digits, without decimals.
pub fn number_of(negative: bool, digits: Text) -> Number
    ensures { result ≡ sides.number_of negative digits }
{
    Number {
        negative,
        digits: SpelledDigits::new(digits),
        scale: 0,
    }
}

/// Digits alone.
pub fn digits_side(digits: Text, position: Position) -> Side
    ensures { result ≡ sides.digits_side digits position }
{
    literal_side(
        Operand::Number(number_of(false, digits)),
        ValueKind::Number(true),
        position,
    )
}

fn figure_kind(figure: Figure) -> ValueKind
    ensures { result ≡ sides.figure_kind figure }
{
    match figure {
        Figure::Zero => ValueKind::Number(true),
        _ => ValueKind::Figure,
    }
}

/// What a literal is.
pub fn literal_kind(literal: &Operand) -> ValueKind
    ensures { result ≡ sides.literal_kind literal.now }
{
    match literal {
        Operand::Number(number) => ValueKind::Number(number.scale == 0),
        Operand::Text(_) => ValueKind::Text,
        Operand::Figure(figure) => figure_kind(*figure),
        Operand::Place(_) => ValueKind::Unknown,
    }
}

/// What is in parentheses, or after a sign that is dropped.
#[tactic(auto, unfolding(cobol_grammar::specs::expr_forms::Side::sum_side))]
pub fn sum_side(position: Position, side: Side) -> Side
    ensures { result ≡ sides.sum_side position side }
{
    Side {
        what: ParsedExpr::Sum(expr_of(side.what)),
        kind: side.kind,
        make: side.make,
        position,
        leaf: side.leaf,
    }
}

/// The negative of a side.
#[tactic(auto, unfolding(cobol_grammar::specs::expr_forms::Side::negated))]
pub fn negated(alloc: Global, position: Position, side: Side) -> Result<Side, NoMemory>
    ensures { Makes (sides.negated position side) result }
{
    let whole = is_whole(side.kind);
    let expr = Expr::Minus(Boxed::new(alloc, expr_of(side.what))?);
    Ok(Side {
        what: ParsedExpr::Sum(expr),
        kind: ValueKind::Number(whole),
        make: ExprContent::Joined,
        position,
        leaf: position,
    })
}

fn enclosed_what(what: ParsedExpr) -> ParsedExpr
    ensures { result ≡ sides.enclosed_what what }
{
    match what {
        ParsedExpr::Ref(place) => ParsedExpr::Enclosed(place),
        ParsedExpr::Enclosed(place) => ParsedExpr::Enclosed(place),
        ParsedExpr::Literal(operand) => ParsedExpr::Sum(Expr::Leaf(operand)),
        ParsedExpr::Sum(expr) => ParsedExpr::Sum(expr),
    }
}

/// What is in parentheses that may also hold a condition.
#[tactic(auto, unfolding(cobol_grammar::specs::expr_forms::Side::enclosed))]
pub fn enclosed(position: Position, side: Side) -> Side
    ensures { result ≡ sides.enclosed position side }
{
    Side {
        what: enclosed_what(side.what),
        kind: side.kind,
        make: side.make,
        position,
        leaf: side.leaf,
    }
}
