//! A broadcast log: messages of one writer for many readers, in words that all threads share without a lock.
//!
//! The writer stages the messages of an event and then publishes them together; a reader reads them from the first one
//! on, in order, each once. A slot is used once: the log neither grows nor starts again. Each load and store of a word
//! is sequentially consistent.
//!
//! No call waits, retries or loops until it succeeds: except for `Log::new`, each loads or stores at most seven words.
//! Only `Log::new` takes memory. Each call requires that the log and its ends belong together.
#![tactic(auto)]

pub mod laws;
mod loads;
mod log;
mod reader;
mod receipt;
mod rule;
mod seats;
mod stores;
mod view;
mod words;
mod writer;

pub use log::Log;
pub use reader::Reader;
pub use receipt::Receipt;
pub use stores::NamesEntries;
pub use writer::{Full, Writer};
