//! What a setup says of a stock and of a member.

use hx_units::{Firm, MemberNo, Symbol};
use std::fmt::{self, Debug, Formatter, Write};

/// A stock of a setup.
#[derive(Clone, Copy, Debug, PartialEq, Eq)]
pub struct Stock {
    /// Its name.
    pub symbol: Symbol,
    /// How its stock directory message of the feed ends, after the name (ITCH 5.0, Stock Directory).
    pub tail: [u8; 20],
}

/// A member of a setup.
#[derive(Clone, Copy, PartialEq, Eq)]
pub struct Member {
    /// Its number, from 1 to 4,095.
    pub number: MemberNo,
    /// Its firm: 4 capital letters or digits.
    pub firm: Firm,
    /// The user of its login, filled with spaces on the right (SoupBinTCP 3.00, Login Request Packet: Username).
    pub user: [u8; 6],
    /// The password of its login, filled with spaces on the right (Password).
    pub password: [u8; 10],
    /// How many of its events are recorded at most, 1 or more.
    pub limit: u32,
}

// By hand, without the password.
impl Debug for Member {
    fn fmt<W: Write>(&self, f: &mut Formatter<W>) -> fmt::Result {
        f.debug_struct("Member")
            .field("number", &self.number)
            .field("firm", &self.firm)
            .field("user", &self.user)
            .field("limit", &self.limit)
            .finish_non_exhaustive()
    }
}
