//! The paragraphs and sections of a PROCEDURE DIVISION by name, found by their headers alone
//! (ISO 1989:1985, PROCEDURE DIVISION), before its statements are read.
//!
//! `procedures_of` goes over the tokens once; `specs/procedure_names/Procedures` defines what it
//! gives. A name is looked up by its number, and never by a search.

mod headers;
mod scan;
mod table;

pub use crate::procedure_names::headers::header_name;
pub use crate::procedure_names::scan::procedures_of;
pub use crate::procedure_names::table::{Header, ProcedureTable};
