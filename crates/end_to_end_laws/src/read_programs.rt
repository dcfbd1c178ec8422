//! What holds of each program that is read, and that what is printed of it is read back as it.
//!
//! It names only what it has, counts by whole numbers, can be printed, and is as the headline for
//! COBOL programs requires: most modules are a law of this kind, over `Reads` of `cobol_read`.
//! Begin with `specs/read_programs/readable_programs/Readable.antt`, which says what makes a
//! program readable, and `specs/read_programs/readable_division/Laws.antt`. `IsNamed` in
//! `specs/read_programs/named_reading/Named.antt` is to be compared with the rules on names in
//! docs/LANGUAGE.md. Nothing here runs.

pub mod division_readings;
pub mod exit_reading;
pub mod few_reading;
pub mod fit_reading;
pub mod named_reading;
pub mod own_names;
pub mod printable_reading;
pub mod printed_words;
pub mod proper_programs;
pub mod readable_division;
pub mod readable_parts;
pub mod readable_programs;
pub mod whole_reading;
