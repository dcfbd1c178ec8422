//! What a program declares that another is split into: the entries of that one, and after these
//! items for the cells of its ranges, whose names aren't words of it. Nothing here runs.

ghost use Rattle.end_to_end_laws.specs.results.result_entries.Laws.{CellItemsServe, FewItemsAreDeclared, SplitProgramsDeclareItems};

/// A split program has the name, the files and the entries of its program, and after these the
/// items for the cells of its ranges.
pub fn split_programs_declare_items()
    ensures { SplitProgramsDeclareItems }
{}

/// There are few added items, where the split program is within the limit of storage.
pub fn few_items_are_declared()
    ensures { FewItemsAreDeclared }
{}

/// Items for cells may be added, so what is known of the program's own parts stays the same, and
/// the name of a cell's item stands for a whole number.
pub fn cell_items_serve()
    ensures { CellItemsServe }
{}
