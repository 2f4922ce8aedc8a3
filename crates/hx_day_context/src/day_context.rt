//! What the workers of an open day share, besides the exchange.

use crate::counters::Counters;
use crate::session_slots::SessionSlots;
use crate::trading_status::TradingStatus;
use hx_members::Setup;

/// What the workers of an open day share, besides the exchange.
#[derive(Drop)]
pub struct DayContext<'a, B> {
    /// The setup.
    pub setup: &'a Setup,
    /// The session table, and who may log in.
    pub session_slots: &'a SessionSlots,
    /// The trading status.
    pub trading_status: &'a TradingStatus,
    /// What is counted.
    pub counters: &'a Counters,
    /// Where notices go.
    pub notice_sink: &'a B,
    /// How many messages the log of the feed has room for.
    pub capacity: u64,
    /// How many reads the operator's input has.
    pub turns: u64,
    /// Whether the end of the operator's input leaves the day open.
    pub stays_open: bool,
}
