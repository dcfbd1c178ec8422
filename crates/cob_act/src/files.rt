//! Statements on files, done over devices (ISO 1989:1985, Sequential I-O).
//!
//! Each statement is done in the order that `meanings::statements` says (Filing there): FROM, the
//! status item is reached, the device is called, the record and the status are stored, then INTO,
//! and the outcome of the statement. Over devices whose files are known each statement has exactly
//! that effect, in every world that describes them (`does`). Devices are called by
//! `file_model::operations`. A condition that each bench meets shows callers in other crates that
//! no device is made here.

mod acts;
mod desk;
mod record;
mod status;
mod work;

pub use crate::files::acts::{
    ReadRequest, WriteRequest, all_opened, all_shut, read_one, rewritten, written,
};
pub use crate::files::desk::close_left;
pub use crate::files::work::{FileDone, FileVerb, FileWork};
