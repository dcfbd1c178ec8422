//! Statements with arms, from the lists that their arms hold, as a structured program has them: an
//! empty list that is required holds CONTINUE, and other empty arms are left out.
//!
//! `specs/arms/EmptyArms.antt` says which empty arms hold CONTINUE and which are left out.
//! `specs/arms/Written.antt` names what is written for statements, whatever the items of cells: it
//! is the theory's `written_stmt`, in `control_flow_theory/specs/rendering/Rendering.antt`.

mod choosing;
mod empty_arms;
mod placing;

pub use crate::arms::choosing::{
    arith_stmt, evaluate_stmt, if_stmt, loop_stmt, perform_stmt, read_stmt,
};
pub use crate::arms::empty_arms::{arm_unless_empty, or_continue};
pub use crate::arms::placing::{ProcedurePlace, place_of};
