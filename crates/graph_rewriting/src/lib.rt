//! A graph while the rules rewrite it.
//!
//! `Work` keeps the trees of a graph in slots, and for each node how many leaves jump to it: so it
//! is known at once whether a rule applies, and no tree is copied. Contracts see its graph, as the
//! graph of the theory of control (`specs/Helds.antt`); `specs/Rewriting.antt` says what holds of
//! it between calls, and `specs/Work.antt` how it is stored.
#![tactic(auto)]

mod counting;
mod drops;
mod filling;
mod finding;
mod kept;
mod rewriting;
mod slots;
mod work;
mod work_graphs;

pub use drops::drop_work;
pub use kept::Kept;
pub use work::Work;
