//! Feeds that come in datagrams, and what a vendor's screen makes of them.

mod again;
mod days;
mod generated;
mod network;
mod relays;
mod screens;
