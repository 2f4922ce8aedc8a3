//! The log of a served day as an operator meets it: a server that takes over reads all that stands in the log, and goes
//! on from its events. A standby reads on and applies what it reads, and takes over once the active writer is gone. A
//! follower writes the tape, and a copy the records.
#![tactic(auto)]

mod copying;
mod fault;
mod following;
mod mirrored_day;
mod mirroring;
mod opening;
mod replica;

pub use copying::copy_on;
pub use fault::DayLogError;
pub use following::write_on;
pub use mirrored_day::MirroredDay;
pub use opening::{News, Watch, open_and_apply, open_log, stand_by, stand_by_and_apply};
pub use replica::{Alone, Replica};
