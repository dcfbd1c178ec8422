//! Two programs from one source.
//!
//! `read_two` cuts a source at its first line that is exactly `======` and reads what comes before
//! that line and what comes behind it (`cobol_read`). `specs/Cut.antt` says where a source is cut,
//! and `specs/Pair.antt` which bytes are which two programs, and why others are none, with a clause
//! for each refusal. `pairs_are_read_one_way` says that there is one answer.
#![tactic(auto)]

mod cut;
mod laws;
mod pair;

pub use laws::pairs_are_read_one_way;
pub use pair::{PairRefusal, Programs, read_two};
