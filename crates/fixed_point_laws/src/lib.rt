//! The fixed point of restructuring: what a program is split into isn't faulty, passes no limit,
//! and is split into itself, so that restructuring what was restructured gives the same text.
//!
//! Begin with `specs/Results.antt`, for programs that are read, and `specs/Splitting.antt`,
//! `splits_come_again`. They are built on `fixed_point`, which has the same for the theory of
//! control: its premise `ResultIsWritten` is met here for COBOL, part by part (`names`, `turning`,
//! `counting`, `tables`, `choices`), and by a small program (`example`). `levels`, `entering` and
//! `ordering` say that a result's procedures are in the order of their paragraphs; `placing` and
//! `adding`, that these keep their names and that no item is added; `faultless`, `ranges`, `tokens`
//! and `limits`, that there is no fault and that no limit is passed. Nothing here runs.
#![tactic(auto)]

pub mod adding;
pub mod choices;
pub mod counting;
pub mod entering;
pub mod example;
pub mod faultless;
pub mod levels;
pub mod limits;
pub mod names;
pub mod ordering;
pub mod placing;
pub mod ranges;
pub mod results;
pub mod splitting;
pub mod tables;
pub mod tokens;
pub mod turning;
