//! What a day is served by.

use crate::args::{OpenArgs, ServeArgs};
use crate::clock::Times;
use crate::counters::Counters;
use hx_listener::{Addresses, Tally};
use hx_members::Setup;
use hx_sessions::DropCopy;

/// What a day is served by, from its first connection to its last.
#[derive(Clone, Copy)]
pub struct Hosting<'a, G, B> {
    /// The setup.
    pub setup: &'a Setup,
    /// Whether it is the standard one, whose passwords are published: a notice says so.
    pub is_standard: bool,
    /// What the command line asks.
    pub args: &'a ServeArgs,
    /// Where the day listens and sends.
    pub addresses: &'a Addresses,
    /// The gate, which is called round each submit and at each login.
    pub gate: &'a G,
    /// Where notices go.
    pub notice_sink: &'a B,
    /// What the command line asks of an open day: then connections are taken all day.
    pub open: Option<OpenArgs>,
    /// The times of members' messages.
    pub times: Times<'a>,
    /// What is counted of an open day's connections and logins.
    pub tally: &'a Tally,
    /// What is counted of the journal and of requests.
    pub counters: &'a Counters,
    /// The logins that are drop copies.
    pub copies: &'a [DropCopy],
}
