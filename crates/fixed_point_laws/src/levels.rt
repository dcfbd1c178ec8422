//! What the levels of a structured program perform.

ghost use Rattle.fixed_point_laws.specs.Levels.{EnteredAreParagraphs, LevelsPerformLater};

/// The level of each paragraph performs only later ones, one at a time; so each range that is
/// entered, except main, is one paragraph.
pub fn levels_perform_later()
    ensures later { LevelsPerformLater }
    ensures entered { EnteredAreParagraphs }
{}
