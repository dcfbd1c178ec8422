//! Does simple statements.
//!
//! `act` does a statement that needs no device, exactly as `meanings::statements` says: the store
//! after it and how it ended are as defined there. Each module has a family of statements, under
//! the name that its definitions have there: DISPLAY in `display`, MOVE and SET in `moving`, the
//! arithmetic statements in `arithmetic`, the arms of IF and EVALUATE in `choice`.
#![tactic(auto)]

mod acting;
mod arithmetic;
mod choice;
mod condition;
mod display;
pub mod files;
mod moving;
mod side;
mod text;

pub use acting::{ActOutcome, act, has_arms};
pub use arithmetic::{added, calculated};
pub use choice::{evaluated, if_chosen};
pub use condition::holds;
pub use display::displayed;
pub use moving::{moved, set};
