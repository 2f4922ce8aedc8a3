//! What an event gives.

use hx_itch::Feed;
use hx_ouch::Outbound;
use hx_units::MemberNo;

/// The output of an event: messages of the feed, and replies, each after its member, both in order.
#[derive(Drop)]
pub struct Output {
    /// The feed's messages.
    pub feed: Vec<Feed>,
    /// The replies.
    pub replies: Vec<(MemberNo, Outbound)>,
}
