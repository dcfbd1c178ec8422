//! How large the lowered graphs of ranges are, without these graphs.
//!
//! The tree at a label is the same for all ranges, except for those that return at the end of its
//! paragraph, or of the last paragraph of its section. So once a tree was counted, its size and the
//! labels to which it jumps are kept (`TreeSizeCache`), and `range_size` goes over the labels that
//! are reached in a range by these alone. A tree that goes on as another is counted by that one
//! (`segment`), so no statement is counted again for each label before it. `range_size` is to be
//! compared with `IsSizeIn` of `specs/range_sizes/Sizing`.

mod cache;
mod exits;
mod parts;
mod segment;
mod sizing;
mod visiting;

pub use crate::range_sizes::cache::TreeSizeCache;
pub use crate::range_sizes::sizing::range_size;
