//! Clients of a feed that comes in datagrams. A watch is what a vendor sees of it: the best bid and offer of each stock
//! as they change, or the depth of one, as lines; and all of it as a web page. A relay sends its packets on as they
//! come, and retains its messages, so that vendors ask the relay for what they miss. `Relay` has no sockets;
//! `relay_feed` has.
#![tactic(auto)]

mod datagrams;
pub mod laws;
mod relaying;
mod watching;

pub use relaying::{Relay, RelayArgs, RelayError, relay_feed};
pub use watching::{WatchArgs, WatchError, watch, watch_on_page};
