//! Program points: the paths that control can take through a program whatever its data, and its
//! points by number.
//!
//! `paths` has the definitions: `specs/paths/Step.antt` and `specs/paths/Flow.antt` are to be
//! compared with what docs/RESTRUCTURING.md says about flow. `perform_ranges` gives the ranges that
//! PERFORM statements name, `numbering` and `table_building` a table of all points, and
//! `point_table` says when a table belongs to a program. That these paths are those of the theory
//! of control the laws of `machine_paths` say.
#![tactic(auto)]

pub mod machine_paths;
pub mod numbering;
pub mod paths;
pub mod perform_ranges;
pub mod point_table;
pub mod table_building;
