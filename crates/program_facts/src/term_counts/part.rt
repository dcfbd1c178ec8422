//! The terms of the largest condition or expression in the parts of statements. A count is at most
//! the largest `u32`.

ghost use Rattle.std.specs.Prelude.{◌≡◌, ◌-◌, ◌^◌, min};
ghost use Rattle.program_facts.specs.term_counts.Part.{control_most, calc_most, target_most, targets_most, subject_most, test_most, tests_most};

use crate::term_counts::condition::cond_terms;
use crate::term_counts::expression::{expr_terms, operand_most, operands_most, place_most};
use cob_tree::{Calc, Control, Subject, Target, Test};

/// The terms of the largest condition or expression in a control.
pub fn control_most(control: &Control) -> u32
    ensures { result ≡ min (control_most control.now) (2 ^ 32 - 1) }
{
    match control {
        Control::Once => 0,
        Control::Times(amount) => operand_most(amount),
        Control::Until { cond, .. } => cond_terms(cond),
        Control::Varying {
            item,
            from,
            by,
            cond,
            ..
        } => {
            let ends = operand_most(from.get()).max(operand_most(by.get()));
            place_most(item.get()).max(ends).max(cond_terms(cond))
        }
    }
}

/// The terms of the largest expression in what an arithmetic statement computes.
pub fn calc_most(calc: &Calc) -> u32
    ensures { result ≡ min (calc_most calc.now) (2 ^ 32 - 1) }
{
    match calc {
        Calc::Add(parts) => operands_most(parts.as_slice()),
        Calc::AddGiving(parts) => operands_most(parts.as_slice()),
        Calc::Subtract(parts) => operands_most(parts.as_slice()),
        Calc::SubtractGiving(parts, from) => {
            operands_most(parts.as_slice()).max(operand_most(from))
        }
        Calc::Multiply(by) => operand_most(by),
        Calc::MultiplyGiving(one, by) => operand_most(one).max(operand_most(by)),
        Calc::Divide(by) => operand_most(by),
        Calc::DivideGiving(by, into) => operand_most(by).max(operand_most(into)),
        Calc::Compute(expr) => expr_terms(expr),
    }
}

fn target_most(target: &Target) -> u32
    ensures { result ≡ min (target_most target.now) (2 ^ 32 - 1) }
{
    place_most(&target.place)
}

/// The terms of the largest expression in targets.
pub fn targets_most(targets: &[Target]) -> u32
    ensures { result ≡ min (targets_most targets.now) (2 ^ 32 - 1) }
{
    let mut most = 0u32;
    for target in targets {
        most = most.max(target_most(target));
    }
    most
}

/// The terms of the largest condition or expression in a subject of EVALUATE.
pub fn subject_most(subject: &Subject) -> u32
    ensures { result ≡ min (subject_most subject.now) (2 ^ 32 - 1) }
{
    match subject {
        Subject::True => 0,
        Subject::False => 0,
        Subject::Value(expr) => expr_terms(expr),
    }
}

fn test_most(test: &Test) -> u32
    ensures { result ≡ min (test_most test.now) (2 ^ 32 - 1) }
{
    match test {
        Test::Any => 0,
        Test::Holds(cond) => cond_terms(cond),
        Test::Value { from, to, .. } => match to {
            None => expr_terms(from),
            Some(to) => expr_terms(from).max(expr_terms(to)),
        },
    }
}

/// The terms of the largest condition or expression in tests of WHEN.
pub fn tests_most(tests: &[Test]) -> u32
    ensures { result ≡ min (tests_most tests.now) (2 ^ 32 - 1) }
{
    let mut most = 0u32;
    for test in tests {
        most = most.max(test_most(test));
    }
    most
}
