//! The parts of a statement that holds others, in boxes, and what is read of it before and after
//! what it holds, over any readers of operands, references, conditions and names (`Parts`).
//!
//! Each function reads exactly by the form that its contract names, of `stmt_forms` (ISO 1989:1985,
//! PROCEDURE DIVISION) or of `specs/drafts/Step`. Contracts see a `Draft` as its statement. The
//! crates above drop trees, and add to lists of them, by the calls of `drops` and `lists`.

mod drops;
mod ending;
mod found_stmts;
mod lists;
mod made;

pub use crate::drafts::drops::{
    drop_arm, drop_cond, drop_control, drop_outline, drop_paragraphs, drop_place, drop_sentences,
    drop_stmts, drop_subject, drop_tests, drop_whens, drop_work,
};
pub use crate::drafts::ending::{draft_ended, stmts_ended, work_ended};
pub use crate::drafts::found_stmts::FoundStmts;
pub use crate::drafts::lists::{paragraph_added, sentence_added, stmt_added, when_added};
pub use crate::drafts::made::{
    Begun, BoxedWork, Draft, added, begin_arithmetic, begin_evaluate, begin_if, begin_perform,
    boxed_place, loop_closed, read_and_next, simple,
};
