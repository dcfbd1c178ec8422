//! The program's own statements as they are in a structured program: each PERFORM of paragraphs
//! names its procedure, and empty arms are written by `statement_builders::arms`.
//!
//! The contracts define the statements by the theory's `written_stmt`, in
//! `control_flow_theory/specs/rendering/Rendering.antt`. A statement that moves to, tests or
//! chooses by an added item isn't one of the program's own: for it the answer is out of memory.

mod writing;

pub use crate::own_statements::writing::{write_stmt, write_stmts};
