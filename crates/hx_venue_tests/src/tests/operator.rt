//! The operator's words, schedule and socket.

mod schedules;
mod sockets;
mod words;
