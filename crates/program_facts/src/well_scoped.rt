//! Named programs: each item, file and paragraph that a program's statements name is there, its
//! numbers are valid, and no list that is required is empty.
//!
//! `specs/well_scoped/Named.antt` defines it, as a fold over the tree. Nothing here runs.

ghost use Rattle.program_facts.specs.well_scoped.Laws.{NameOwnItems};

/// With up to 2^31 entries, a program that names only what it has names its own items.
pub fn named_programs_name_own_items()
    ensures { NameOwnItems }
{}
