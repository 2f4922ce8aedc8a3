//! Each read, each write and each growth in turn.

mod days;
mod desks;
mod failing;
mod framing;
mod growths;
mod waiting;
