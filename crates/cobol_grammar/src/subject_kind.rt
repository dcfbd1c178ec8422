//! What is kept of a subject of EVALUATE.

use crate::expr_forms::{ExprContent, ValueKind};
use parser_combinators::Position;

/// What is known of a subject of EVALUATE, so that others can be compared with it.
#[derive(Clone, Copy, Debug, PartialEq, Eq)]
pub struct SubjectKind {
    pub kind: ValueKind,
    pub make: ExprContent,
    /// Where it begins.
    pub position: Position,
}
