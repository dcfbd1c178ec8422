//! Lists of a program's parts, with one more. They are dropped where there is no memory.

ghost use Rattle.std.specs.Prelude.{[], ◌∷◌, ◌++◌};
ghost use Rattle.cob_base.specs.Answers.{Makes};

use cob_base::{Items, NoMemory};
use cob_tree::{Paragraph, Sentence, Stmt, When};
use cobol_grammar::part_readers::pushed;

/// The statements with one more.
pub fn stmt_added(found: Items<Stmt>, next: Stmt) -> Result<Items<Stmt>, NoMemory>
    ensures { Makes (found ++ next ∷ []) result }
{
    pushed(found, next)
}

/// The WHENs with one more.
pub fn when_added(found: Items<When>, next: When) -> Result<Items<When>, NoMemory>
    ensures { Makes (found ++ next ∷ []) result }
{
    pushed(found, next)
}

/// The sentences with one more.
pub fn sentence_added(found: Items<Sentence>, next: Sentence) -> Result<Items<Sentence>, NoMemory>
    ensures { Makes (found ++ next ∷ []) result }
{
    pushed(found, next)
}

/// The paragraphs with one more.
pub fn paragraph_added(
    found: Items<Paragraph>,
    next: Paragraph,
) -> Result<Items<Paragraph>, NoMemory>
    ensures { Makes (found ++ next ∷ []) result }
{
    pushed(found, next)
}
