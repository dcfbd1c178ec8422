//! Lists that grow. They are dropped where there is no memory.

ghost use Rattle.std.specs.Prelude.{[], ◌∷◌, ◌++◌};
ghost use Rattle.cob_base.specs.Answers.{Makes};

use cob_base::{Items, NoMemory};
use cob_tree::{Operand, Place, Stmt, Test};

/// The list with one more element; it is dropped where there is no memory.
///
/// It is generic, so that the drop of the list is checked without the drops of the types in it.
pub fn pushed<T: Drop>(mut items: Items<T>, item: T) -> Result<Items<T>, NoMemory>
    ensures { Makes (items ++ item ∷ []) result }
{
    match items.push(item) {
        Ok(()) => Ok(items),
        Err(fault) => {
            drop(items);
            Err(fault)
        }
    }
}

/// The operands with one more.
pub fn operand_added(found: Items<Operand>, next: Operand) -> Result<Items<Operand>, NoMemory>
    ensures { Makes (found ++ next ∷ []) result }
{
    pushed(found, next)
}

/// The items with one more.
pub fn item_added(found: Items<Place>, next: Place) -> Result<Items<Place>, NoMemory>
    ensures { Makes (found ++ next ∷ []) result }
{
    pushed(found, next)
}

/// The tests with one more.
pub fn test_added(found: Items<Test>, next: Test) -> Result<Items<Test>, NoMemory>
    ensures { Makes (found ++ next ∷ []) result }
{
    pushed(found, next)
}

/// The statements with one more.
pub fn stmt_added(found: Items<Stmt>, next: Stmt) -> Result<Items<Stmt>, NoMemory>
    ensures { Makes (found ++ next ∷ []) result }
{
    pushed(found, next)
}
