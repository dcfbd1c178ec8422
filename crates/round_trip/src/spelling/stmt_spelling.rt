//! Statements, sentences, paragraphs and sections are spelled by the tokens with which they are
//! printed, where the operands, places, expressions, conditions and names in them are. Nothing here
//! runs.

ghost use Rattle.std.specs.Prelude.{◌≡◌, ℕ};
ghost use Rattle.cob_tree.specs.declared.program.Program as tree;
ghost use Rattle.cobol_print.specs.Unit.{all_tokens};
ghost use Rattle.cobol_print.specs.units.Division.{paragraphs_units};
ghost use Rattle.round_trip.specs.spelled_forms.Spelling.{Spelled};
ghost use Rattle.cobol_grammar.specs.stmt_forms.Paragraph.{division};
ghost use Rattle.round_trip.specs.spelling.stmt_spelling.Division.{AtEnd, SpellsDivision};
ghost use Rattle.round_trip.specs.spelling.stmt_spelling.Part.{Kept, PartsAreTold};

use cobol_grammar::stmt_forms::Made;

/// What is kept of the parts of statements as they are read.
pub trait Keeps<Side> {
    ghost kept: { Kept Side };
}

/// The tokens with which the paragraphs of a program are printed spell them, where their parts
/// spell what they have to.
pub fn procedures_are_spelled<Side, Known, M: Made<Side, Known>, K: Keeps<Side>>()
    ensures { (program : tree.Program) (taken : ℕ) → PartsAreTold M.parts K.kept →
        SpellsDivision M.parts K.kept program taken program.paragraphs →
        Spelled (division M.parts) taken (all_tokens (paragraphs_units program program.paragraphs))
        AtEnd (λ found. found ≡ program.paragraphs) }
{}
