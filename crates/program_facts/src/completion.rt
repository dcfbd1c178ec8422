//! Which statements can't complete, and lists that are cut after them.
//!
//! Lowering knows which ranges return and which files have no status item
//! (`specs/completion/FlowFacts`). What a statement, once it is cut, then is
//! `specs/completion/Facts` says: it is to be compared with the rule that a list, also a nested
//! one, ends after its first statement that can't complete
//! (`control_flow_theory/specs/lowering/Completes`).

mod cutting;
mod facts;
pub mod laws;
mod told;

pub use crate::completion::cutting::{cut_stmt, cut_stmts};
pub use crate::completion::facts::{Facts, stmt_facts, stmts_facts};
pub use crate::completion::told::{ends_at_end, returns};
