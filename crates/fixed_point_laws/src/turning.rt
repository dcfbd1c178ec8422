//! What sets and steps each VARYING of a COBOL program does something.

ghost use Rattle.fixed_point_laws.specs.Turning.{VaryingActs};

/// What sets and steps each VARYING of a program does something: it is MOVE, and ADD.
pub fn varying_acts()
    ensures { VaryingActs }
{}
