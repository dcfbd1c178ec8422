//! The divisions before the PROCEDURE DIVISION are read twice: to learn which names there are, and
//! with these. Both readings take the same tokens and read the same, except for what status items
//! stand for. Nothing here runs.

ghost use Rattle.grammar_laws.specs.whole_counts.status_readings.Laws.{ReferencesTakeTheSame};

/// Whatever names there are, a reference takes the same tokens, or stops in the same way.
pub fn references_take_the_same()
    ensures { ReferencesTakeTheSame }
{}
