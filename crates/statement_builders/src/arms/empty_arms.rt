//! Empty lists: a required one holds CONTINUE, any other is left out.

ghost use Rattle.std.specs.Prelude.{◌≡◌, IfOk};
ghost use Rattle.control_flow_theory.specs.language.Control.{seen_stmts};
ghost use Rattle.cob_tree.specs.declared.stmt.Stmt.TheVariants.{Continue};
ghost use Rattle.control_flow_theory.specs.rendering.Rendering.{required};
ghost use Rattle.statement_builders.specs.arms.Choosing.{IsKept};

use cob_base::{Items, NoMemory};
use cob_tree::Stmt;

/// The statements, or CONTINUE.
pub fn or_continue(stmts: Items<Stmt>) -> Result<Items<Stmt>, NoMemory>
    ensures { IfOk result (λ made. seen_stmts 0 made ≡ required Continue (seen_stmts 0 stmts)) }
{
    if stmts.len() == 0 {
        let mut made = stmts;
        made.push(Stmt::Continue)?;
        Ok(made)
    } else {
        Ok(stmts)
    }
}

/// The statements of an arm; where it is empty it holds CONTINUE, if `continues` says so, or is
/// left out.
pub fn arm_unless_empty(
    stmts: Items<Stmt>,
    continues: bool,
) -> Result<Option<Items<Stmt>>, NoMemory>
    ensures { IfOk result (λ made. IsKept continues (seen_stmts 0 stmts) made) }
{
    if continues {
        Ok(Some(or_continue(stmts)?))
    } else if stmts.len() == 0 {
        Ok(None)
    } else {
        Ok(Some(stmts))
    }
}
