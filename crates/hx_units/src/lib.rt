//! The units of the exchange: prices, shares, times, members, sides and names, each exactly in its range;
//! the fields of a binary message; texts as bytes: cut at a byte, without the spaces that fill them, and
//! numbers in decimal, and written whole; and what contracts alone know.
#![tactic(auto)]

mod cut;
mod decimal;
pub mod fields;
mod heartbeat;
mod known;
mod member;
mod memory;
mod names;
mod price;
mod shares;
mod side;
mod spaces;
mod time;
mod writing;

pub use cut::split_once;
pub use decimal::read_number;
pub use heartbeat::is_heartbeat_due;
pub use known::Known;
pub use member::MemberNo;
pub use memory::{NoMemory, indices_ahead, reserve_ahead};
pub use names::{Firm, Symbol, Token};
pub use price::Price;
pub use shares::Shares;
pub use side::Side;
pub use spaces::trimmed;
pub use time::Nanos;
pub use writing::{WriteFailed, write_whole};
