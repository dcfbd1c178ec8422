//! COBOL's choices, written again, choose as they did.

ghost use Rattle.fixed_point_laws.specs.Choices.{CountedChoicesComeAgain};

/// A choice that has the arms that its chooser or its cell requires is written once more as it was
/// written: an arm that was left out is left out again.
pub fn counted_choices_come_again()
    ensures { CountedChoicesComeAgain }
{}
