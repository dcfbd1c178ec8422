//! How long a program's items are, in bytes (ISO 1989:1985, PICTURE, USAGE, OCCURS and REDEFINES
//! clauses).
//!
//! `sizes_of` computes the bytes of one occurrence of each entry, from the last entry to the first,
//! by `specs/sizes/Size`; `storage_of` counts the bytes of all items by `specs/sizes/Storage`, and
//! `storage_limit` there says whether they are too many. Entries with faults aren't refused: an
//! entry with an invalid level takes no bytes.

mod storage;

pub use crate::size::sizes_of;
pub use crate::sizes::storage::storage_of;
