//! The listeners of a day: the addresses at which it listens and sends, who is let in, how many connections of one
//! address there may be, and how often requests are answered.
#![tactic(auto)]

mod acceptor;
mod addresses;
mod backoffs;
mod connection;
mod fault;
mod left;
mod pending_login;
mod pending_logins;
mod queue;
mod rate;
mod rules;
mod sockets;
mod source;
mod tally;

pub use acceptor::keep_acceptor;
pub use addresses::{Addresses, MOST_FEEDS, address_of, is_loopback, reaches};
pub use backoffs::{Backoffs, backoff_after};
pub use connection::{Connection, Inlet, Outlet};
pub use fault::AcceptorsError;
pub use left::Left;
pub use pending_logins::PendingLogins;
pub use rate::Rate;
pub use rules::{AcceptorRules, ConnectionNotices, DayEnd};
pub use sockets::{Acceptors, Datagrams, Sockets, take};
pub use source::source_of;
pub use tally::{Tally, count};
