//! What holds of a grammar that is written in these forms, proved for the small one of `example`,
//! which uses each way to make a form. These functions do nothing; their contracts are laws.

ghost use Rattle.parser_combinators.specs.Laws.{FormsAreRead, LevelsOnlyAdd};

/// Each form of the small grammar reads what it spells and nothing else, and stops at the first
/// token up to which the tokens aren't cut.
pub fn forms_are_read()
    ensures { FormsAreRead }
{}

/// More levels change neither what is read nor a fault of another kind, and go on after what was
/// nested too deep.
pub fn levels_only_add()
    ensures { LevelsOnlyAdd }
{}
