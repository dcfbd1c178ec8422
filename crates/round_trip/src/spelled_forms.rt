//! Which kinds of tokens spell a value of a form: laws on each maker of forms, with which what is
//! printed is shown to be spelled by the grammar. Nothing here runs.

ghost use Rattle.round_trip.specs.spelled_forms.Laws.{TextsAreSpelled};

/// Names and literals in quotation marks are spelled by one token each.
pub fn texts_are_spelled()
    ensures { TextsAreSpelled }
{}
