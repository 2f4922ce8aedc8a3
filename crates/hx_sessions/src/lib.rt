//! Sessions of members that run (SoupBinTCP 3.00), each in one thread: it takes the client's packets in and submits
//! their messages, sends the member's replies, and sleeps when there is nothing to do.
#![tactic(auto)]

mod beginning;
mod clock_and_gate;
mod copies;
mod debt;
mod delivery;
mod ending;
mod inbound;
mod intake;
pub mod laws;
mod login;
mod opening;
mod outbound;
mod part;
mod serving;
mod session;
mod workers;

pub use beginning::Start;
pub use clock_and_gate::{Clock, Gate};
pub use copies::{DropCopy, Logins};
pub use delivery::{Delivery, Turn};
pub use ending::{Ended, Fault};
pub use intake::{Action, Intake};
pub use login::start;
pub use part::Part;
pub use serving::serve_all;
pub use session::Session;
