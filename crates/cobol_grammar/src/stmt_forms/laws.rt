//! What holds of the forms. These functions do nothing; their contracts are laws.

ghost use Rattle.std.specs.Prelude.{ℕ};
ghost use Rattle.parser_combinators.specs.Reading.{IsReader};
ghost use Rattle.cobol_grammar.specs.declared.stmt_forms.scope.Scope.{Scope};
ghost use Rattle.cobol_grammar.specs.stmt_forms.Part.{Parts};
ghost use Rattle.cobol_grammar.specs.stmt_forms.Laws.{PartsAreLawful};
ghost use Rattle.cobol_grammar.specs.stmt_forms.Stmt.{stmts};
ghost use Rattle.cobol_grammar.specs.stmt_forms.Paragraph.{division};

/// What statements are made of: forms of operands, references, conditions and names.
pub trait Made<Side, Known> {
    ghost parts: { Parts Side Known };
}

/// Whatever lawful forms they are built on, statements, nested to any level, and the whole division
/// read what they spell and nothing else, and stop at the first token up to which the tokens aren't
/// cut.
pub fn statements_are_read<Side, Known, M: Made<Side, Known>>()
    ensures stmts { PartsAreLawful M.parts →
        (levels : ℕ) (scope : Scope) → IsReader (stmts M.parts levels scope) }
    ensures division { PartsAreLawful M.parts → IsReader (division M.parts) }
{}
