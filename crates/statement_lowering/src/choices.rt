//! What chooses among arms.

ghost use Rattle.std.specs.Prelude.{◌≡◌, IfOk};
ghost use Rattle.control_flow_theory.specs.language.Control.{always, test_of};
ghost use Rattle.control_flow_theory.specs.language.Language.{Arith, By, Evaluate, Holds, If, Read};
ghost use Rattle.control_flow_theory.specs.semantics.Graph.{Pick};
ghost use Rattle.branch_tree.specs.Choosers.{seen_chooser, seen_picker};
ghost use Rattle.branch_tree.specs.Tree.{seen_end, seen_trees};
ghost use Rattle.statement_lowering.specs.Arms.{when_tests};

use branch_tree::{Chooser, End, Picker, Test, Tree, drop_trees};
use cob_base::{Copied, Items, NoMemory};
use cob_tree::{
    Calc, Cond, Expr, Figure, Operand, Place, Rel, Subject, Target, Test as WhenTest, When,
};
use std::alloc::Global;

fn picked(by: Picker, arms: Items<Tree>) -> End
    ensures { seen_end result ≡ Pick (seen_picker by) (seen_trees arms) }
{
    End::Pick { by, arms }
}

/// The choice of an IF, with these arms.
pub fn pick_if(alloc: Global, cond: &Cond, arms: Items<Tree>) -> Result<End, NoMemory>
    ensures { IfOk result (λ end. seen_end end ≡ Pick (If (test_of cond.now)) (seen_trees arms)) }
{
    match cond.copy(alloc) {
        Ok(cond) => Ok(picked(Picker::If(Test::Holds(cond)), arms)),
        Err(fault) => {
            drop_trees(arms);
            Err(fault)
        }
    }
}

/// The condition that zero is zero, which always holds.
fn always() -> Cond
    ensures { result ≡ always }
{
    Cond::Relation(
        Expr::Leaf(Operand::Figure(Figure::Zero)),
        Rel::Equal,
        Expr::Leaf(Operand::Figure(Figure::Zero)),
    )
}

/// A choice of one arm.
pub fn pick_always(arms: Items<Tree>) -> End
    ensures { seen_end result ≡ Pick (If (Holds always)) (seen_trees arms) }
{
    picked(Picker::If(Test::Holds(always())), arms)
}

/// The tests of each WHEN.
fn tests_of(alloc: Global, whens: &[When]) -> Result<Items<Items<WhenTest>>, NoMemory>
    ensures { IfOk result (λ tests. tests ≡ when_tests whens.now) }
{
    let mut tests = Items::new(alloc);
    for when in whens {
        tests.push(when.tests.copy(alloc)?)?;
    }
    Ok(tests)
}

fn evaluate_chooser(
    alloc: Global,
    subject: &Subject,
    whens: &[When],
    has_other: bool,
) -> Result<Chooser, NoMemory>
    ensures { IfOk result (λ chooser. seen_chooser chooser
        ≡ Evaluate subject.now (when_tests whens.now) has_other) }
{
    let subject = subject.copy(alloc)?;
    let tests = tests_of(alloc, whens)?;
    Ok(Chooser::Evaluate {
        subject,
        tests,
        has_other,
    })
}

/// The choice of an EVALUATE, with these arms.
pub fn pick_evaluate(
    alloc: Global,
    subject: &Subject,
    whens: &[When],
    has_other: bool,
    arms: Items<Tree>,
) -> Result<End, NoMemory>
    ensures { IfOk result (λ end. seen_end end
        ≡ Pick (By (Evaluate subject.now (when_tests whens.now) has_other)) (seen_trees arms)) }
{
    match evaluate_chooser(alloc, subject, whens, has_other) {
        Ok(chooser) => Ok(picked(Picker::By(chooser), arms)),
        Err(fault) => {
            drop_trees(arms);
            Err(fault)
        }
    }
}

/// The choice of a READ, with these arms.
pub fn pick_read(
    alloc: Global,
    file: u32,
    into: &Option<Place>,
    has_end: bool,
    arms: Items<Tree>,
) -> Result<End, NoMemory>
    ensures { IfOk result (λ end. seen_end end
        ≡ Pick (By (Read file into.now has_end)) (seen_trees arms)) }
{
    match into.copy(alloc) {
        Ok(into) => {
            let chooser = Chooser::Read {
                file,
                into,
                has_end,
            };
            Ok(picked(Picker::By(chooser), arms))
        }
        Err(fault) => {
            drop_trees(arms);
            Err(fault)
        }
    }
}

fn arith_chooser(alloc: Global, calc: &Calc, into: &Items<Target>) -> Result<Chooser, NoMemory>
    ensures { IfOk result (λ chooser. seen_chooser chooser ≡ Arith calc.now into.now) }
{
    let calc = calc.copy(alloc)?;
    let into = into.copy(alloc)?;
    Ok(Chooser::Arith { calc, into })
}

/// The choice of arithmetic with a phrase, with these arms.
pub fn pick_arith(
    alloc: Global,
    calc: &Calc,
    into: &Items<Target>,
    arms: Items<Tree>,
) -> Result<End, NoMemory>
    ensures { IfOk result (λ end. seen_end end
        ≡ Pick (By (Arith calc.now into.now)) (seen_trees arms)) }
{
    match arith_chooser(alloc, calc, into) {
        Ok(chooser) => Ok(picked(Picker::By(chooser), arms)),
        Err(fault) => {
            drop_trees(arms);
            Err(fault)
        }
    }
}
