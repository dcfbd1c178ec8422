//! What holds of programs that can be printed. This function does nothing; its contract is a law.

ghost use Rattle.round_trip.specs.printable.Laws.{PrintableProgramsAreGiven};

/// A text can have the names, numbers and literals of a program that can be printed.
pub fn printable_programs_are_given()
    ensures { PrintableProgramsAreGiven }
{}
