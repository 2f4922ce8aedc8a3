//! What is wrong with a line.
use std::fmt;

/// What is wrong with a line of a tape. The checks come in this order.
#[derive(Clone, Copy, Debug, PartialEq, Eq)]
pub enum Kind {
    /// The line has not the form of a tape's lines.
    Bad,
    /// The time is not within the day.
    Time,
    /// The setup has no such member.
    Member,
    /// The member's events have reached its limit.
    Limit,
}

impl fmt::Display for Kind {
    fn fmt<W: fmt::Write>(&self, f: &mut fmt::Formatter<W>) -> fmt::Result {
        f.write_str(match self {
            Kind::Bad => "bad line",
            Kind::Time => "bad time",
            Kind::Member => "no such member",
            Kind::Limit => "member at limit",
        })
    }
}
