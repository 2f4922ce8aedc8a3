//! The rules of an acceptor, and what it asks and reports to.

use crate::left::Left;
use crate::tally::Tally;
use hx_members::Setup;
use std::net::SocketAddr;
use std::sync::Wait;

/// The rules of an acceptor.
#[derive(Clone, Copy)]
pub struct AcceptorRules<'a> {
    /// The setup whose logins are good.
    pub setup: &'a Setup,
    /// How many seconds a connection has for its login.
    pub login_limit: u32,
    /// How many connections of one address there may be, pending and in session slots.
    pub each: u32,
    /// What is counted.
    pub tally: &'a Tally,
}

/// A day that ends some time.
pub trait DayEnd {
    /// Whether it takes no more connections.
    fn is_over<T: Wait>(&self, rt: &T) -> bool;
}

/// Gets reports of connections that the acceptor closed.
pub trait ConnectionNotices {
    /// Reports that this one was closed.
    fn tell_left(&self, from: SocketAddr, why: Left);
}
