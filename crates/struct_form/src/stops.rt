//! A first paragraph that ends in STOP RUN.

ghost use Rattle.std.specs.Prelude.{◌≡◌};
ghost use Rattle.struct_form.specs.Stops.{ends_in_stop, first_stops};

use cob_tree::{Paragraph, Stmt};

fn ends_in_stop(stmts: &[Stmt]) -> bool
    ensures { result ≡ ends_in_stop stmts.now }
{
    match stmts.last() {
        Some(stmt) => matches!(stmt, Stmt::StopRun),
        None => false,
    }
}

/// Whether the first paragraph's first sentence ends in STOP RUN.
pub fn first_stops(paragraphs: &[Paragraph]) -> bool
    ensures { result ≡ first_stops paragraphs.now }
{
    match paragraphs {
        [first, ..] => match first.sentences.as_slice() {
            [sentence, ..] => ends_in_stop(sentence.stmts.as_slice()),
            [] => false,
        },
        [] => false,
    }
}
