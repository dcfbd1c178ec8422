//! Statements that fit. These functions do nothing; their contracts are laws.

ghost use Rattle.std.specs.Prelude.{ℕ, suc, ◌≡◌, ◌≤◌, Bool, true, false, List};
ghost use Rattle.cob_tree.specs.Depth.{stmts_depth};
ghost use Rattle.cob_tree.specs.declared.program.Paragraph as tree_paragraph;
ghost use Rattle.cob_tree.specs.declared.program.Program as tree;
ghost use Rattle.cob_tree.specs.declared.program.Sentence as tree_sentence;
ghost use Rattle.cob_tree.specs.declared.stmt.Stmt as tree_stmt;
ghost use Rattle.cobol_lex.specs.declared.token.TokenKind as tokens;
ghost use Rattle.round_trip.specs.fitting_statements.Fits.{Fits};
ghost use Rattle.round_trip.specs.fitting_statements.Given.{PartsFit, FitSentences, FitParagraphs};
ghost use Rattle.round_trip.specs.fitting_statements.Scope.{are_in_scope};
ghost use Rattle.round_trip.specs.fitting_statements.Spelling.{FitsSpell};
ghost use Rattle.round_trip.specs.fitting_statements.Statement.{are_fit_stmts, are_fit_paragraphs};
ghost use Rattle.grammar_laws.specs.form_results.Giving.{Gives};
ghost use Rattle.program_facts.specs.well_scoped.Part.{is_filled};
ghost use Rattle.cobol_grammar.specs.declared.stmt_forms.scope.Scope as scopes;
ghost use Rattle.cobol_grammar.specs.stmt_forms.Laws.{PartsAreLawful};
ghost use Rattle.cobol_grammar.specs.stmt_forms.Paragraph.{division};
ghost use Rattle.round_trip.specs.spelling.stmt_spelling.Division.{SpellsSentences};
ghost use Rattle.round_trip.specs.spelling.stmt_spelling.Stmt.{SpellsList};

use crate::spelling::stmt_spelling::Keeps;
use cobol_grammar::stmt_forms::Made;

/// What is required of each token of a source.
pub trait Asks {
    ghost kind: { tokens.TokenKind → Type 0 };
}

/// The tests of the parts of statements.
pub trait Tests {
    ghost fits: { Fits };
}

/// Where parts that pass a test spell what its use requires, one statement or more that fit, are in
/// scope and nest at most so deep spell what is printed of them.
pub fn fit_statements_spell<Side, Known, P: Made<Side, Known>, K: Keeps<Side>, T: Tests>()
    ensures { (program : tree.Program) → FitsSpell P.parts K.kept program T.fits →
        (levels : ℕ) (scope : scopes.Scope) (list : List tree_stmt.Stmt) →
        is_filled list ≡ true → are_fit_stmts T.fits list ≡ true →
        are_in_scope list scope ≡ true → stmts_depth list ≤ levels →
        SpellsList P.parts K.kept program (suc levels) scope list }
{}

/// The same for the sentences of a paragraph, which may be an EXIT that is alone.
pub fn fit_sentences_spell<Side, Known, P: Made<Side, Known>, K: Keeps<Side>, T: Tests>()
    ensures { (program : tree.Program) → FitsSpell P.parts K.kept program T.fits →
        (scope : scopes.Scope) (sentences : List tree_sentence.Sentence) →
        FitSentences T.fits scope sentences →
        SpellsSentences P.parts K.kept program scope sentences }
{}

/// Where what the parts give with no fault noted passes the tests, the statements of a division
/// that is read with no fault fit, are in scope, and nest within the limit.
pub fn read_statements_fit<Side, Known, A: Asks, R: Made<Side, Known>, K: Keeps<Side>, T: Tests>()
    ensures { PartsAreLawful R.parts → PartsFit R.parts K.kept T.fits A.kind →
        Gives A.kind (division R.parts) (FitParagraphs T.fits false) }
{}

/// Paragraphs whose sentences fit pass as a whole: each statement in them does, an EXIT that is
/// alone too.
pub fn fit_paragraphs_pass<T: Tests>()
    ensures { (in_section : Bool) (paragraphs : List tree_paragraph.Paragraph) →
        FitParagraphs T.fits in_section paragraphs → are_fit_paragraphs T.fits paragraphs ≡ true }
{}
