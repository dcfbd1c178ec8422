//! Named programs name only paragraphs of their own, as the headline for COBOL programs requires:
//! each paragraph that their statements name is there, and each inline loop has a control. Nothing
//! here runs.

ghost use Rattle.cobol_theory.specs.own_paragraphs.Laws.{NamedProgramsNameOwnParagraphs};

/// A program that names only what it has names its own paragraphs.
pub fn named_programs_name_own_paragraphs()
    ensures { NamedProgramsNameOwnParagraphs }
{}
