//! What an operator may say.

use hx_units::{MemberNo, Symbol};

/// What an operator says in words.
#[derive(Clone, Copy, Debug, PartialEq, Eq)]
pub enum Command {
    /// The day starts: codes `O` and `S` of the hours (ITCH 5.0, System Event Message).
    Start,
    /// The market opens: code `Q`.
    Open,
    /// The market closes: code `M`.
    Close,
    /// The day ends: codes `E` and `C`.
    End,
    /// One code of the hours.
    Code(u8),
    /// A stock is halted (ITCH 5.0, Stock Trading Action Message).
    Halt {
        /// The stock.
        stock: Symbol,
        /// The reason that the feed gives.
        reason: [u8; 4],
    },
    /// A stock trades again.
    Resume {
        /// The stock.
        stock: Symbol,
    },
    /// An execution is broken (ITCH 5.0, Broken Trade Message).
    Break {
        /// Its match number.
        number: u64,
    },
    /// Time passes: orders whose seconds are over end.
    Tick,
    /// How the day stands.
    Status,
    /// The sessions of a member are ended.
    Disconnect(MemberNo),
    /// A member may log in.
    Allow(MemberNo),
    /// A member may not log in.
    Refuse(MemberNo),
    /// What may be said.
    Help,
}

/// What may be said, a line each.
pub const HELP: &str = "\
start                     start of messages and of system hours (codes O, S)
open                      start of market hours (code Q)
close                     end of market hours (code M)
end                       end of system hours and of messages (codes E, C)
code X                    one code: O, S, Q, M, E or C
halt STOCK REASON [\"..\"]  a stock is halted, as: halt ABCD T1 \"news pending\"
resume STOCK              a stock trades again
break NUMBER              an execution is broken, by its match number
tick                      orders whose seconds are over end
status                    how the day stands
drop MEMBER               the sessions of a member are ended
allow MEMBER              a member may log in
refuse MEMBER             a member may not log in
help                      this text
";
