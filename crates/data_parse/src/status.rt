//! How a status item is referred to.

ghost use Rattle.std.specs.Prelude.{true};
ghost use Rattle.cob_tree.specs.declared.place.Place.{Place as PlaceOf};
ghost use Rattle.parser_combinators.specs.Form.{Form};
ghost use Rattle.parser_combinators.specs.Reading.{Reads};
ghost use Rattle.parser_combinators.proofs.MakerLaws.{Law};

use cob_tree::Place;
use parser_combinators::{Cursor, Unread};
use std::alloc::Global;

/// A reader of references to status items, exact by a form of its own.
pub trait StatusReader {
    ghost form: { Self → Form PlaceOf };

    /// Reads a reference to a status item.
    fn status(&self, alloc: Global, cursor: &mut Cursor<'_>) -> Result<Place, Unread>
        ensures { Reads ((form self.now).reads cursor.old) result cursor.new };

    ghost lawful: { (it : Self) → Law true (form it) };
}
