//! The types of packets, as letters (SoupBinTCP 3.00, Logical Packets).

/// Login Request, from the client.
pub const LOGIN_REQUEST: u8 = b'L';

/// Unsequenced Data, from the client.
pub const UNSEQUENCED_DATA: u8 = b'U';

/// Client Heartbeat.
pub const CLIENT_HEARTBEAT: u8 = b'R';

/// Logout Request.
pub const LOGOUT_REQUEST: u8 = b'O';

/// Debug, from either side.
pub const DEBUG: u8 = b'+';

/// Login Accepted, from the server.
pub const LOGIN_ACCEPTED: u8 = b'A';

/// Login Rejected.
pub const LOGIN_REJECTED: u8 = b'J';

/// Sequenced Data, from the server.
pub const SEQUENCED_DATA: u8 = b'S';

/// Server Heartbeat.
pub const SERVER_HEARTBEAT: u8 = b'H';

/// End of Session.
pub const END_OF_SESSION: u8 = b'Z';
