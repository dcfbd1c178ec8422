//! Constructors of the statements that a result consists of.
//!
//! `arms` makes statements from the lists that their arms hold: an empty list that is required
//! holds CONTINUE, and other empty arms are left out. `item_words` makes the statements, tests and
//! choices on added items. Both are to be compared with `written_stmt` of
//! `control_flow_theory/specs/rendering/Rendering.antt`, whose laws say that what is written does
//! what the graph did.
#![tactic(auto)]

pub mod arms;
pub mod item_words;
