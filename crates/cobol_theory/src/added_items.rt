//! Items that come after a program's own don't change what its parts do.
//!
//! A restructured program declares what its source declares, and then items of its own. So it
//! stores what the source stores, and then the bytes of these. The laws say that each part of the
//! source does there what it does in the source, and leaves the added bytes as they are, and that
//! added items are stored after all others. Nothing here runs: the functions are laws.

ghost use Rattle.cobol_theory.specs.added_items.Laws.{AddedItemsLieBehind, AddedItemsStartBehind, LayoutsAreInside, OwnPartsDoTheSame};

/// A part that names items of the program's own does the same where other items come after these,
/// and leaves their bytes.
pub fn own_parts_do_the_same()
    ensures { OwnPartsDoTheSame }
{}

/// Each entry of a layout has an area, and each area is in a root.
pub fn layouts_are_inside()
    ensures { LayoutsAreInside }
{}

/// Items of level 01 that come after a program's own are stored after them, each in a root of its
/// own, and don't change where the others are.
pub fn added_items_lie_behind()
    ensures { AddedItemsLieBehind }
{}

/// At the start of a run, the first bytes of each added item come after what the program's own
/// items hold.
pub fn added_items_start_behind()
    ensures { AddedItemsStartBehind }
{}
