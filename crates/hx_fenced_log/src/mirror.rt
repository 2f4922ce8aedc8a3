//! A journal with a mirror: another journal with the same records.

mod mirrored;
mod writing;

pub use mirrored::MirroredJournal;
