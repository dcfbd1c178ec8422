//! Named programs name only items of their own, as the tests of what may be written require: each
//! item that a statement names is declared. Nothing here runs.

ghost use Rattle.cobol_theory.specs.named_items.Laws.{NamedStatementsAreOwn};

/// A statement that names only what the program has passes the test that it names the program's own
/// items.
pub fn named_statements_are_own()
    ensures { NamedStatementsAreOwn }
{}
