//! A market in partitions: the output of all of them together to members and vendors. Each function is a proved
//! statement, and does nothing.
ghost use Rattle.hx_laws.specs.Partitions.{QuietInAny, OneMemberInAll, OneMemberInOne, AllMembersInAll};

/// Quiet orders leave no trace in any partition: for any choice in each of whole chains that in the end were never
/// displayed and never traded, the partitions without the messages that bear one of their tokens have the same output
/// for every member of which no token is chosen.
pub fn quiet_in_any()
    ensures { QuietInAny }
{}

/// Without the messages of all quiet chains of a member, in all partitions or in one of them, everybody else gets the
/// same output from all.
pub fn one_member()
    ensures all { OneMemberInAll }
    ensures one { OneMemberInOne }
{}

/// Without the messages of the quiet chains of all members, in all partitions, the feeds of all are the same.
pub fn all_members()
    ensures { AllMembersInAll }
{}
