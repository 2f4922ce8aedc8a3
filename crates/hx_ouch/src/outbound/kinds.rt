//! The types of replies to a member, as letters (OUCH 4.2, Outbound Messages).

/// System Event.
pub const SYSTEM_EVENT: u8 = b'S';

/// Accepted.
pub const ACCEPTED: u8 = b'A';

/// Replaced.
pub const REPLACED: u8 = b'U';

/// Canceled.
pub const CANCELED: u8 = b'C';

/// Executed.
pub const EXECUTED: u8 = b'E';

/// Rejected.
pub const REJECTED: u8 = b'J';

/// Broken Trade.
pub const BROKEN_TRADE: u8 = b'B';
