//! Operations on the files of a program, over the devices of a bench (ISO 1989:1985, Sequential
//! I-O).
//!
//! OPEN, CLOSE, READ, WRITE and REWRITE first look at the table, which keeps the state of each
//! file; what it refuses is noted, and no device is called. Otherwise the first device on the bench
//! with the file's device name is called. A device that answers that it failed is taken off the
//! bench, and the program's files on it are closed in the table.

mod address;
mod calls;
mod closing;
mod fault;
mod finding;
mod noting;
mod opening;
mod reading;
mod taking;
mod watched;
mod writing;

pub use crate::operations::closing::{close, close_open};
pub use crate::operations::fault::FileFault;
pub use crate::operations::opening::open;
pub use crate::operations::reading::read;
pub use crate::operations::watched::{Shown, Watched};
pub use crate::operations::writing::{rewrite, write};
