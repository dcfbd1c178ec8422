//! Lists that grow.

ghost use Rattle.std.specs.Prelude.{[], ◌∷◌, ◌++◌};
ghost use Rattle.cob_base.specs.Answers.{Makes};

use cob_base::{Items, NoMemory};

/// The list with one more element; it is dropped where there is no memory.
///
/// It is generic, so that the drop of the list is checked without the drops of the types in it.
pub fn pushed<T: Drop>(mut items: Items<T>, item: T) -> Result<Items<T>, NoMemory>
    ensures { Makes (items ++ item ∷ []) result }
{
    match items.push(item) {
        Ok(()) => Ok(items),
        Err(fault) => {
            drop(items);
            Err(fault)
        }
    }
}
