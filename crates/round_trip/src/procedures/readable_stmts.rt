//! The sentences and paragraphs of a PROCEDURE DIVISION that is read with no fault have what they
//! need to be spelled by what is printed of them, over open parts: those by which it is read, and
//! those by which what is printed is read again (`specs/procedures/readable_stmts/Fit.antt`).
//! Headers are treated separately (`specs/procedures/readable_stmts/Body.antt`). Nothing here runs.

ghost use Rattle.std.specs.Prelude.{ℕ, List};
ghost use Rattle.cob_tree.specs.declared.program.Paragraph as tree_paragraph;
ghost use Rattle.cob_tree.specs.declared.program.Program as tree;
ghost use Rattle.cobol_lex.specs.declared.token.TokenKind as tokens;
ghost use Rattle.grammar_laws.specs.form_results.Giving.{Gives};
ghost use Rattle.round_trip.specs.procedures.readable_stmts.Body.{AreHeaders, SpellsBodies};
ghost use Rattle.round_trip.specs.procedures.readable_stmts.Fit.{PartsFit};
ghost use Rattle.cobol_grammar.specs.stmt_forms.Laws.{PartsAreLawful};
ghost use Rattle.cobol_grammar.specs.stmt_forms.Paragraph.{division};
ghost use Rattle.round_trip.specs.spelling.stmt_spelling.Division.{SpellsDivision};

use crate::spelling::stmt_spelling::Keeps;
use cobol_grammar::stmt_forms::Made;

/// What is required of each token of a source.
pub trait Asks {
    ghost kind: { tokens.TokenKind → Type 0 };
}

/// Where the parts by which a division is read fit those by which what is printed of it is read
/// again, and no fault is noted, its sentences and paragraphs have what they need, except for their
/// headers.
pub fn readable_divisions_spell<
    Side,
    Known,
    A: Asks,
    R: Made<Side, Known>,
    P: Made<Side, Known>,
    K: Keeps<Side>,
>()
    ensures { (program : tree.Program) → PartsAreLawful R.parts →
        PartsFit R.parts P.parts K.kept program A.kind →
        Gives A.kind (division R.parts) (λ found. SpellsBodies P.parts K.kept program found) }
{}

/// Bodies of paragraphs, with their headers at the places where they are printed, spell the
/// division.
pub fn bodies_with_headers_spell<Side, Known, P: Made<Side, Known>, K: Keeps<Side>>()
    ensures { (program : tree.Program) (taken : ℕ) (paragraphs : List tree_paragraph.Paragraph) →
        SpellsBodies P.parts K.kept program paragraphs →
        AreHeaders P.parts K.kept program taken paragraphs →
        SpellsDivision P.parts K.kept program taken paragraphs }
{}
