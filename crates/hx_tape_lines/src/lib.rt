//! The lines of a tape: each event has one line, and each line says one event or none.
#![tactic(auto)]

mod decimal;
mod fault;
mod hexadecimal;
pub mod laws;
pub mod line;
mod operator;
mod reading;
mod vectors;
mod writing;

pub use decimal::digit_count;
pub use fault::Kind;
pub use hexadecimal::write_bytes;
pub use line::{Fields, LONGEST_LINE};
pub use operator::read_operator_line;
pub use reading::{event_of, read_event};
pub use writing::{write_event, write_record};
