//! Which lines are shown.
ghost use Rattle.std.specs.Prelude.{◌≡◌};
ghost use Rattle.hx_show.specs.Lines.{is_chosen};

use crate::line::Head;
use hx_units::MemberNo;

/// Which lines of a text are shown.
#[derive(Clone, Copy, Debug, PartialEq, Eq)]
pub enum Choice {
    /// All lines, also those that are none.
    All,
    /// The messages of the feed.
    Feed,
    /// The messages of a member, and the replies to it.
    Member(MemberNo),
}

impl Choice {
    /// Whether a line is chosen.
    pub(crate) fn has(self, head: Head) -> bool
        ensures { result ≡ is_chosen self head }
    {
        match self {
            Choice::All => true,
            Choice::Feed => matches!(head, Head::OfFeed { .. }),
            Choice::Member(chosen) => match head {
                Head::Sent { member, .. } => member == u64::from(chosen.get()),
                Head::ToMember { member, .. } => member == u64::from(chosen.get()),
                Head::OfFeed { .. } => false,
            },
        }
    }
}
