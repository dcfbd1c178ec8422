//! The closed body of a range as statements of a program, and the one sentence of its procedure.
//!
//! A body has no jump: it is a tree of pieces, choices and loops, with what is written for their
//! leaves. The contracts define the statements by the theory's `written_stmts` and
//! `written_paragraph`, in `control_flow_theory/specs/rendering/Rendering.antt`, with the names of
//! `statement_builders/specs/arms/Written.antt`. Statements are moved out of the trees, so none is
//! copied.
#![tactic(auto)]

mod leaves;
pub mod own_statements;
mod pieces;
mod procedure;

pub use procedure::write_procedure;
