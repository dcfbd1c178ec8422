//! Sums as far as they are read.

ghost use Rattle.std.specs.Prelude.{◌≡◌};
ghost use Rattle.cob_base.specs.Answers.{Makes};
ghost use Rattle.cob_tree.specs.declared.place.Expr.TheVariants as exprs;
ghost use Rattle.cobol_grammar.specs.expr_forms.Chain as chains;

use crate::actions::drops::{drop_expr, drop_side};
use crate::actions::fault::is_whole;
use crate::actions::side::expr_of;
use cob_base::{Boxed, NoMemory};
use cob_tree::{Expr, Op};
use cobol_grammar::expr_forms::{Chain, ExprContent, ParsedExpr, PendingTerm, Side, ValueKind};
use std::alloc::Global;

/// A sum of one term.
pub fn chain_of(side: Side) -> Chain
    ensures { result ≡ chains.chain_of side }
{
    Chain {
        before: None,
        last: side,
    }
}

/// Two expressions joined by an operator.
fn both(alloc: Global, op: Op, left: Expr, right: Expr) -> Result<Expr, NoMemory>
    ensures { Makes (exprs.Both op left right) result }
{
    match Boxed::new(alloc, left) {
        Ok(left) => match Boxed::new(alloc, right) {
            Ok(right) => Ok(Expr::Both(op, left, right)),
            Err(fault) => {
                drop(left);
                Err(fault)
            }
        },
        Err(fault) => {
            drop_expr(right);
            Err(fault)
        }
    }
}

/// The whole sum.
#[tactic(auto, unfolding(cobol_grammar::specs::expr_forms::Chain::finish))]
pub fn finish(alloc: Global, chain: Chain) -> Result<Side, NoMemory>
    ensures { Makes (chains.finish chain) result }
{
    let Chain { before, last } = chain;
    match before {
        None => Ok(last),
        Some(before) => {
            let PendingTerm {
                left,
                op,
                position,
                whole,
            } = before;
            let whole = whole && is_whole(last.kind);
            let sum = both(alloc, op, left, expr_of(last.what))?;
            Ok(Side {
                what: ParsedExpr::Sum(sum),
                kind: ValueKind::Number(whole),
                make: ExprContent::Joined,
                position,
                leaf: position,
            })
        }
    }
}

fn opened(op: Op, side: Side) -> PendingTerm
    ensures { result ≡ chains.opened op side }
{
    let whole = is_whole(side.kind);
    PendingTerm {
        left: expr_of(side.what),
        op,
        position: side.position,
        whole,
    }
}

fn multiplied(alloc: Global, op: Op, exact: bool, left: Side, right: Side) -> Result<Side, NoMemory>
    ensures { Makes (chains.multiplied op exact left right) result }
{
    let whole = exact && (is_whole(left.kind) && is_whole(right.kind));
    let position = left.position;
    let product = both(alloc, op, expr_of(left.what), expr_of(right.what))?;
    Ok(Side {
        what: ParsedExpr::Sum(product),
        kind: ValueKind::Number(whole),
        make: ExprContent::Joined,
        position,
        leaf: position,
    })
}

/// The sum with one more factor.
fn factored(
    alloc: Global,
    op: Op,
    exact: bool,
    chain: Chain,
    right: Side,
) -> Result<Chain, NoMemory>
    ensures { Makes (record {
      before = chain.before;
      last = chains.multiplied op exact chain.last right;
    }) result }
{
    let Chain { before, last } = chain;
    match multiplied(alloc, op, exact, last, right) {
        Ok(last) => Ok(Chain { before, last }),
        Err(fault) => {
            drop(before);
            Err(fault)
        }
    }
}

/// The sum with one more term or factor.
#[tactic(auto, unfolding(cobol_grammar::specs::expr_forms::Chain::joined))]
pub fn joined(alloc: Global, op: Op, chain: Chain, right: Side) -> Result<Chain, NoMemory>
    ensures { Makes (chains.joined op chain right) result }
{
    match op {
        Op::Add | Op::Sub => match finish(alloc, chain) {
            Ok(left) => Ok(Chain {
                before: Some(opened(op, left)),
                last: right,
            }),
            Err(fault) => {
                drop_side(right);
                Err(fault)
            }
        },
        Op::Mul => factored(alloc, op, true, chain, right),
        Op::Div => factored(alloc, op, false, chain, right),
    }
}
