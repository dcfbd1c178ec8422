//! Trails of programs: whether one is accepted.
//!
//! `check` follows a trail's moves through the tree, without allocating, and holds exactly where
//! `IsAccepted` of `program_points::paths` does. `specs/Follow.antt` defines following moves
//! through statements, `specs/Checking.antt` following them from one paragraph to the next.
#![tactic(auto)]

mod checking;
pub mod finding;
mod follow;
mod judge;
mod leg;
pub mod notes;
mod through;

pub use checking::{begins_in_main, check, goal_of, hops_lead, is_main, leads, lemmas_hold};
pub use follow::{
    Branch, BranchChoice, Followed, arm_move, follow_call, follow_calls, follow_depending,
    follow_perform, is_lemma, name_at, next_move, over_move, pick_branch, side_of, turned,
};
pub use judge::{
    ExitPosition, Goal, LegContext, ends_at, is_pending, last_into, meets_call, meets_end, pushed,
    standing_of,
};
pub use leg::{
    ParagraphOutcome, ParagraphStep, call_leg, end_leg, follow_sentences, one_leg, section_last,
};
pub use through::{
    follow_arms, follow_first, follow_loop, follow_second, follow_stmt, follow_stmts, follow_turns,
    follow_when,
};
