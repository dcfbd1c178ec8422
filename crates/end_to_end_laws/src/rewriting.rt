//! What restructuring does to the graphs of a program's ranges keeps what they do: they are a sound
//! family, and so is what each rule makes of them.
//!
//! Begin with `specs/rewriting/Families.antt`, which says what a sound family is, and when another
//! graph may take the place of one of its graphs; it is to be compared with
//! docs/RESTRUCTURING.md. Nothing here runs.

pub mod lowered_families;
pub mod rule_walks;
