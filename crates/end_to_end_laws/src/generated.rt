//! Why what is printed of the generated programs can be read: their names and numbers can be
//! printed, the entry of the counter keeps the rules, each paragraph is found by its name, and
//! their statements are spelled. Nothing here runs.

mod laws;
pub mod readable_generated;
pub mod short_generated;

pub use crate::generated::laws::{
    generated_programs_are_printable, generated_programs_are_spelled,
    generated_programs_are_titled, generated_programs_have_procedures,
    generated_programs_keep_rules,
};
