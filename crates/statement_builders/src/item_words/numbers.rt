//! Numbers as they are written, and tests of a cell's item with them.

ghost use Rattle.std.specs.Prelude.{◌≡◌, [], ◌∷◌, ◌++◌, map, OnOk};
ghost use Rattle.cob_base.specs.Answers.{Makes};
ghost use Rattle.cobol_theory.specs.cell_items.Cell.{cell_place, cell_operand, number_operand, operand_expr};
ghost use Rattle.cobol_theory.specs.cell_items.Laws.{cell_relation, number_tests};
ghost use Rattle.cobol_theory.specs.cell_serving.Choosing.{place_expr};
ghost use Rattle.cobol_theory.specs.cell_serving.Entries.{whole_literal};
ghost use Rattle.cobol_theory.specs.cell_serving.Naming.{numbers_from};

use cob_base::{Items, NoMemory};
use cob_tree::{Cond, Expr, Number, Operand, Place, Rel, SpelledDigits, Test as WhenTest};
use cob_words::numbered::numbered_text;
use std::alloc::Global;

/// A number as a literal.
pub fn whole_literal(alloc: Global, value: u32) -> Result<Number, NoMemory>
    ensures { Makes (whole_literal value) result }
{
    let digits = numbered_text(alloc, &[], value)?;
    Ok(Number {
        negative: false,
        digits: SpelledDigits::new(digits),
        scale: 0,
    })
}

/// A number as an operand.
pub fn number_operand(alloc: Global, value: u32) -> Result<Operand, NoMemory>
    ensures { Makes (number_operand (whole_literal value)) result }
{
    let number = whole_literal(alloc, value)?;
    Ok(Operand::Number(number))
}

fn number_side(alloc: Global, value: u32) -> Result<Expr, NoMemory>
    ensures { Makes (operand_expr (number_operand (whole_literal value))) result }
{
    let number = number_operand(alloc, value)?;
    Ok(Expr::Leaf(number))
}

/// An item as a place.
pub fn item_place(alloc: Global, item: u32) -> Place
    ensures { result ≡ cell_place item }
{
    Place {
        item,
        of: Items::new(alloc),
        subs: Items::new(alloc),
        window: None,
    }
}

/// An item as an expression.
pub fn item_side(alloc: Global, item: u32) -> Expr
    ensures { result ≡ operand_expr (cell_operand item) }
{
    Expr::Leaf(Operand::Place(item_place(alloc, item)))
}

/// A place as an expression.
pub fn place_side(place: Place) -> Expr
    ensures { result ≡ place_expr place }
{
    Expr::Leaf(Operand::Place(place))
}

/// The item compared with the number.
pub fn relation(alloc: Global, item: u32, rel: Rel, value: u32) -> Result<Cond, NoMemory>
    ensures { Makes (cell_relation item rel (whole_literal value)) result }
{
    let number = number_side(alloc, value)?;
    Ok(Cond::Relation(item_side(alloc, item), rel, number))
}

/// A list of one element.
pub fn single<T: Drop>(alloc: Global, one: T) -> Result<Items<T>, NoMemory>
    ensures { Makes (one ∷ []) result }
{
    let mut items = Items::new(alloc);
    match items.push(one) {
        Ok(()) => Ok(items),
        Err(fault) => Err(fault),
    }
}

/// The test of a WHEN for the number alone.
fn number_tests(alloc: Global, value: u32) -> Result<Items<WhenTest>, NoMemory>
    ensures { Makes (number_tests (whole_literal value)) result }
{
    let from = number_side(alloc, value)?;
    single(
        alloc,
        WhenTest::Value {
            not: false,
            from,
            to: None,
        },
    )
}

fn add_tests(alloc: Global, tests: &mut Items<Items<WhenTest>>, most: u32) -> Result<(), NoMemory>
    ensures { OnOk result
        (tests.new ≡ tests.old ++ map number_tests (numbers_from whole_literal 1 most)) }
{
    for number in 0..most {
        tests.push(number_tests(alloc, number + 1)?)?;
    }
    Ok(())
}

/// The tests of WHENs for the numbers from 1 on.
pub fn tests_to(alloc: Global, most: u32) -> Result<Items<Items<WhenTest>>, NoMemory>
    ensures { Makes (map number_tests (numbers_from whole_literal 1 most)) result }
{
    let mut tests = Items::new(alloc);
    match add_tests(alloc, &mut tests, most) {
        Ok(()) => Ok(tests),
        Err(fault) => {
            drop(tests);
            Err(fault)
        }
    }
}
