//! SoupBinTCP 3.00: packets out of a stream and into it, and logins.
//!
//! Only `Framer::feed` takes memory: that of the list of the packets it gives.
#![tactic(auto)]

mod answer;
mod framer;
pub mod kinds;
pub mod laws;
mod login;
mod packet;
mod step;

pub use answer::{NOT_AUTHORIZED, SESSION_NOT_AVAILABLE, accepted, rejected};
pub use framer::{Framer, FramerError};
pub use hx_units::trimmed;
pub use login::{LoginRequest, decode_login};
pub use packet::{SoupPacket, frame};
