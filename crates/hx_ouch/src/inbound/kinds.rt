//! The types of messages from a member, as letters (OUCH 4.2, Inbound Messages).

/// Enter Order.
pub const ENTER_ORDER: u8 = b'O';

/// Replace Order.
pub const REPLACE_ORDER: u8 = b'U';

/// Cancel Order.
pub const CANCEL_ORDER: u8 = b'X';
