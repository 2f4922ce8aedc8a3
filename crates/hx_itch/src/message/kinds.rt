//! The types of the feed's messages, as letters (ITCH 5.0: Message Type of each message).

/// System Event.
pub const SYSTEM_EVENT: u8 = b'S';

/// Stock Directory.
pub const STOCK_DIRECTORY: u8 = b'R';

/// Add Order, no MPID attribution.
pub const ADD_ORDER: u8 = b'A';

/// Add Order with MPID attribution.
pub const ADD_ORDER_WITH_ATTRIBUTION: u8 = b'F';

/// Order Executed.
pub const ORDER_EXECUTED: u8 = b'E';

/// Order Cancel.
pub const ORDER_CANCEL: u8 = b'X';

/// Order Delete.
pub const ORDER_DELETE: u8 = b'D';

/// Order Replace.
pub const ORDER_REPLACE: u8 = b'U';

/// Trade (non-cross).
pub const TRADE: u8 = b'P';

/// Stock Trading Action.
pub const STOCK_TRADING_ACTION: u8 = b'H';

/// Broken Trade.
pub const BROKEN_TRADE: u8 = b'B';
