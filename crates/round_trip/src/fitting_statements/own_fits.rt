//! Tests of the parts of statements by the names that a program declares itself: what passes is
//! spelled by what is printed of it. Nothing here runs.

ghost use Rattle.round_trip.specs.fitting_statements.own_fits.Laws.{OwnFitsSpell};

/// What passes a test of a program's own names spells what its use requires, with each table in
/// which what passes as a label or a range is one.
pub fn own_fits_spell()
    ensures { OwnFitsSpell }
{}
