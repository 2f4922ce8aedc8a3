//! Where a session begins.

use hx_units::MemberNo;

/// Where an accepted session begins.
#[derive(Clone, Copy, Debug, PartialEq, Eq)]
pub struct Start {
    /// The member that has logged in.
    pub member: MemberNo,
    /// The number of the first reply that is sent, counted from 1 (SoupBinTCP 3.00, Login Accepted Packet:
    /// Sequence Number).
    pub first: u64,
}
