//! A day over sockets: members connect and are served, the feed goes out in packets, requests for messages again are
//! answered, and the operator's lines come from a reader. It ends by itself when all of these have ended. An open day
//! accepts connections all day: each of its session slots serves one session after another.
#![tactic(auto)]

mod applied_day;
mod attending;
mod backoff;
mod beginning;
mod day;
mod day_services;
mod director;
mod ending;
mod fault;
mod feeds;
mod history;
mod journaled_day;
mod open_day;
mod operating;
mod operator;
mod parts;
mod publishing;
mod sending;
mod slot_workers;
mod watching;
mod workers;

pub use applied_day::{AppliedDay, time_of};
pub use beginning::{AppliedBeginning, Beginning, Day};
pub use day::{serve, serve_applied_from, serve_day, serve_from};
pub use day_services::{DayServices, Metrics};
pub use director::Duties;
pub use ending::{fault_of_day, fault_of_resume, write_last_line};
pub use fault::ServeError;
pub use history::write_history;
pub use hx_day_context::{
    ActiveSession, Counted, Counters, DayClock, Hosting, Json, JsonNotices, Notice, NoticeSink,
    Notices, OpenArgs, Refusal, ServeArgs, SessionSlots, Silent, Stage, Times, TradingStatus,
    today,
};
pub use hx_listener::{Acceptors, Addresses, Datagrams, Left, Rate, Sockets, Tally, address_of};
pub use journaled_day::{keep_history, new_history, serve_applied, serve_durable};
pub use operator::operate;
