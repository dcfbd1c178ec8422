//! The paragraphs that a name of a procedure stands for.

ghost use Rattle.std.specs.Prelude.{◌≡◌, Some, None, if◌then◌else◌};
ghost use Rattle.std.specs.Str.{bytes_eq};
ghost use Rattle.cobol_grammar.specs.Name as words;

use cob_base::Word;
use symbol_tables::procedure_names::ProcedureTable;

fn is_spelled(word: &Word, name: &[u8]) -> bool
    ensures { result ≡ bytes_eq word.now name.now }
{
    word.as_slice() == name
}

// The word of these bytes, where they are one in capitals.
fn word_of(name: &[u8]) -> Option<Word>
    ensures { result ≡ (if words.is_capital_word name.now then Some name.now else None) }
{
    match Word::new(name) {
        None => None,
        Some(word) => {
            if is_spelled(&word, name) {
                Some(word)
            } else {
                None
            }
        }
    }
}

/// The first and the last paragraph of the procedure with this name; none where there is none.
pub fn procedure_of(table: &ProcedureTable, name: &[u8]) -> Option<(u32, u32)>
    ensures { result ≡ words.procedure_of table.now name.now }
{
    match word_of(name) {
        None => None,
        Some(word) => table.range_of(&word),
    }
}
