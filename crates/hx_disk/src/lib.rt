//! A file, and what a crash may leave of it.
//!
//! `Device` says what a file does, and what a power cut may leave of it at any moment, within a
//! call or between two:
//!
//! - What was synced stays, until it is written over or cut.
//! - Of a write that was not synced, each byte of its range is the old one or the new one, on its
//!   own. Past the old end of the file a byte is the new one or zero, or the file ends before it.
//!   So sectors and pages may reach the disk in any order, in part or not at all, and the new
//!   length without its bytes.
//! - Of a cut that was not synced, the file ends somewhere between the new end and the old one, and
//!   each byte after the new end is the old one or zero.
//! - A sync that answers Ok makes all of this the file that its reader sees. A sync that fails
//!   makes nothing certain, and neither does one that is tried again after it (a kernel may drop
//!   the pages that it could not write): so the first failed call is the last that is made.
//! - A process that is killed leaves the file as a crash would. What its reader sees afterwards may
//!   be in the page cache alone, so it is synced and read from the disk before anything is
//!   believed.
//!
//! That is what ext4 (`data=ordered`), XFS and btrfs promise on disks whose flush is honest. The
//! model leaves out:
//!
//! - a sector that reads as garbage, or as an error, because power failed while it was written:
//!   also one that has synced records, since the next block goes on in the same sector;
//! - blocks of other files after the end (ext4 with `data=writeback`);
//! - a disk that answers a flush before the data is safe;
//! - bit rot, and writes to the file by anybody else.
#![tactic(auto)]

mod call_log;
mod device;
mod host;
mod memory;
mod noted;

pub use call_log::CallLog;
pub use device::{Device, DeviceError};
pub use host::{FileError, HostFile, open_file};
pub use memory::MemoryFile;
pub use noted::{Noted, RawFile};
