//! What holds of the items of every program.
//!
//! Each law is the contract of a function that does nothing.
ghost use Rattle.cob_store.specs.Laws.{BinaryNumbersAreRead, EditedItemsShowAll, LayoutFits, PackedNumbersAreRead};

/// Each item with a picture of 1 to 18 digits has the bytes that its storage wants, and each edited
/// one those of its mask.
pub fn items_have_their_sizes()
    ensures { LayoutFits }
{}

/// What is put into a binary or a packed item that can hold it is read there.
pub fn numbers_that_are_put_are_read()
    ensures binary { BinaryNumbersAreRead }
    ensures packed { PackedNumbersAreRead }
{}

/// An edited item takes all that its mask shows of a number.
pub fn edited_items_show_all()
    ensures { EditedItemsShowAll }
{}
