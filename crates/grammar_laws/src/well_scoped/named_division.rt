//! What the whole PROCEDURE DIVISION gives, over the names of a program and the procedures that its
//! own headers declare: where no fault of a name is noted, each item and file that its statements
//! name is declared, and each paragraph is one of those that the headers declare.
//!
//! Nothing here runs.

ghost use Rattle.grammar_laws.specs.well_scoped.named_division.Laws.{DivisionGives};

/// Where no fault is noted, the division has a paragraph, and its statements are named, with as
/// many paragraphs as the headers declare.
pub fn division_gives()
    ensures { DivisionGives }
{}
