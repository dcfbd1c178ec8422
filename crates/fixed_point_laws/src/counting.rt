//! How many arms the choices of procedures have.

ghost use Rattle.fixed_point_laws.specs.Counting.{ProceduresAreCounted};

/// Each procedure of a source nests, performing procedures, and each of its choices has as many
/// arms as lowering knows its chooser or its cell to have.
pub fn procedures_are_counted()
    ensures { ProceduresAreCounted }
{}
