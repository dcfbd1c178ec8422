//! Statements as they are read.

use cob_base::Items;
use cob_tree::Stmt;
use std::marker::Model;

/// The statements so far. Contracts see the pair.
#[derive(Drop)]
pub struct FoundStmts {
    pub stmts: Items<Stmt>,
    /// Whether a NOT was read after them that isn't theirs.
    pub pending_not: bool,
}

impl Model for FoundStmts {
    ghost use Rattle.cob_tree.specs.contracts.stmt.Stmt as rows;
    ghost use Rattle.cobol_grammar.specs.stmt_forms.Arms.{Found};
    ghost use Rattle.std.specs.Coded.{coded×, coded_bool, coded_list};

    ghost Value = { Found };

    ghost coded = { coded× (coded_list rows.the_row.coded) coded_bool };

    ghost view = { λ found. (found.stmts, found.pending_not) };
}
