//! Devices with files, and the state of the files of a program (ISO 1989:1985, Sequential I-O).
//!
//! `specs` has the world of a run, which is the devices with their files and the state of each file
//! of the program; and for each operation one attempt, which gives the world after it, the bytes
//! that it moved and its status. A `Device` is provided by the caller; a `Bench` holds devices; a
//! `FileTable` keeps the state of each file of the program and answers the statuses that need no
//! device.
#![tactic(auto)]

mod bench;
mod device;
pub mod folder;
mod mem_device;
mod mem_file;
mod null_device;
pub mod operations;
mod table;

pub use bench::Bench;
pub use cob_tree::How;
pub use device::{Device, Got, Opened, Put};
pub use mem_device::MemDevice;
pub use mem_file::MemFile;
pub use null_device::NullDevice;
pub use table::{FileRow, FileTable};
