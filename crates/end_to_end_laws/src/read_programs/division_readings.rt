//! The divisions before the PROCEDURE DIVISION are read twice: without names, to learn what they
//! declare, and with these names. Both readings take the same tokens and read the same, except for
//! what status items stand for. So paragraphs are read at the same tokens among which the headers
//! of procedures are counted. Nothing here runs.

ghost use Rattle.end_to_end_laws.specs.read_programs.division_readings.Laws.{DivisionsReadTheSame, ParagraphsAreReadWhereCounted};

/// Whatever names and entries there are, the divisions take the same tokens, or stop in the same
/// way, and read the same, except for what status items stand for.
pub fn divisions_read_the_same()
    ensures { DivisionsReadTheSame }
{}

/// In a program that is read, the paragraphs are those of the tokens among which the headers of its
/// procedures are counted, from the first one on.
pub fn paragraphs_are_read_where_counted()
    ensures { ParagraphsAreReadWhereCounted }
{}
