//! Events: the inputs of the market, each with its time.
ghost use Rattle.std.specs.Prelude.{◌≡◌, ◌<◌, length, IfOk, IfErr, List};
ghost use Rattle.hx_rules.specs.Steps.{message_bytes};

use crate::bytes::Bytes;
use hx_units::{NoMemory, Symbol};

/// One event of the market: a member's message, or one of the operator: a tick, the hours' next code, a halt, or a
/// break. Its time is in nanoseconds since midnight, and it is that of all that the event gives.
#[derive(Drop)]
pub enum Event {
    /// A message of a member, an OUCH 4.2 message if it is readable.
    Message {
        /// The member's number, 1 to 4,095.
        member: u16,
        /// When it came, in nanoseconds since midnight.
        time: u64,
        /// The message, as its bytes came.
        bytes: Bytes,
    },
    /// The operator lets time pass: orders whose seconds are over end.
    Tick {
        /// When it is, in nanoseconds since midnight.
        time: u64,
    },
    /// The operator ends a part of the day (ITCH 5.0, System Event Message).
    Hours {
        /// When it is, in nanoseconds since midnight.
        time: u64,
        /// The event code: `O`, `S`, `Q`, `M`, `E` or `C`.
        code: u8,
    },
    /// The operator halts a stock, or lets it trade (ITCH 5.0, Stock Trading Action Message).
    Halt {
        /// When it is, in nanoseconds since midnight.
        time: u64,
        /// The stock.
        stock: Symbol,
        /// `H` halted, `T` trading.
        state: u8,
        /// Why, as the feed reports it.
        reason: [u8; 4],
    },
    /// The operator breaks an execution (ITCH 5.0, Broken Trade Message).
    Break {
        /// When it is, in nanoseconds since midnight.
        time: u64,
        /// The match number of the execution.
        number: u64,
    },
}

impl Event {
    /// An equal event, which shares the bytes of a message. `NoMemory` if they can't be shared once more: one without
    /// bytes takes no memory, nor do the other events.
    pub fn copy(&self) -> Result<Event, NoMemory>
        ensures equal { IfOk result (λ event. event ≡ self.now) }
        ensures memory { IfErr result (λ _. 0 < length (message_bytes self.now)) }
    {
        Ok(match self {
            Event::Message {
                member,
                time,
                bytes,
            } => Event::Message {
                member: *member,
                time: *time,
                bytes: bytes.share()?,
            },
            Event::Tick { time } => Event::Tick { time: *time },
            Event::Hours { time, code } => Event::Hours {
                time: *time,
                code: *code,
            },
            Event::Halt {
                time,
                stock,
                state,
                reason,
            } => Event::Halt {
                time: *time,
                stock: *stock,
                state: *state,
                reason: *reason,
            },
            Event::Break { time, number } => Event::Break {
                time: *time,
                number: *number,
            },
        })
    }
}
