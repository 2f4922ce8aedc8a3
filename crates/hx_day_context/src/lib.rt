//! What the workers of a day share, besides the exchange: the arguments of the command line, clocks, the session table,
//! the trading status, the counters, and where notices go.
#![tactic(auto)]

mod args;
mod clock;
mod counters;
mod day_context;
mod hosting;
mod notices;
mod seated;
mod session_slots;
mod status;
mod trading_status;

pub use args::{OpenArgs, ServeArgs};
pub use clock::{DayClock, Times, since_1970, today};
pub use counters::{Counted, Counters};
pub use day_context::DayContext;
pub use hosting::Hosting;
pub use notices::{
    AcceptorNotices, Json, JsonNotices, Notice, NoticeSink, Notices, Refusal, Silent, fault_number,
    notice_of_end, tell_end,
};
pub use seated::{SessionSlotInput, SessionSlotOutput};
pub use session_slots::{ActiveSession, SessionSlots};
pub use status::write_status;
pub use trading_status::{Stage, TradingStatus};
