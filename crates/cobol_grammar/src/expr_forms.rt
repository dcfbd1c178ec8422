//! How references, operands and arithmetic expressions are spelled: a form for each production
//! (ISO 1989:1985, identifiers and arithmetic expressions), which gives what they are in the tree,
//! what is known of them, and the first fault of a name in them.
//!
//! `Reference` to `FirstInParens` of `specs/expr_forms` are to be compared with the grammar in
//! docs/LANGUAGE.md, `Fault` with the uses that it lists. `expressions_are_read` says that each
//! form reads what it spells and nothing else, and stops at the first fault; `parentheses_only_add`
//! that more levels of parentheses only add. The crate has no code that reads.

mod chain;
mod either;
mod front;
mod laws;
mod reference;
mod side;

pub use crate::expr_forms::chain::{Chain, PendingTerm};
pub use crate::expr_forms::either::MaybeSubscripts;
pub use crate::expr_forms::front::FirstInParens;
pub use crate::expr_forms::laws::{expressions_are_read, parentheses_only_add};
pub use crate::expr_forms::reference::{RefSuffixes, Suffix};
pub use crate::expr_forms::side::{ExprContent, ExprForm, ParsedExpr, Side, ValueKind};
