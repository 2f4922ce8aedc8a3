//! The server's answers to a login (SoupBinTCP 3.00, Login Accepted Packet and Login Rejected Packet).
ghost use Rattle.std.specs.Prelude.{◌≡◌, ◌++◌, [], ◌∷◌};
ghost use Rattle.hx_soup.specs.Packets.{framed};
ghost use Rattle.hx_soup.specs.Kinds.{login_accepted, login_rejected};
ghost use Rattle.hx_soup.specs.Logins.{padded};

use crate::kinds;
use crate::packet::frame;
use arrayvec::ArrayVec;
use hx_units::fields::put;
use itoa::write_digits;

/// The reason of a rejected login whose user name is unknown or whose password is another (SoupBinTCP 3.00,
/// Login Rejected Packet: Not Authorized).
pub const NOT_AUTHORIZED: u8 = b'A';

/// The reason of a rejected login for another session than the present one (SoupBinTCP 3.00, Login Rejected
/// Packet: Session not available).
pub const SESSION_NOT_AVAILABLE: u8 = b'S';

/// The bytes of the packet that accepts a login (SoupBinTCP 3.00, Login Accepted Packet): the session, and the
/// number of the sequenced message that is sent next, in decimal with spaces on the left up to 20 characters.
/// It takes no memory.
pub fn accepted(session: [u8; 10], next: u64) -> ArrayVec<u8, 1026>
    ensures { result.items ≡ framed login_accepted (session ++ padded next) }
{
    let mut payload: ArrayVec<u8, 30> = ArrayVec::new();
    put(&mut payload, &session);
    put(&mut payload, &padded(next));
    frame(kinds::LOGIN_ACCEPTED, payload.as_slice())
}

// A number's digits, with spaces before them.
fn padded(number: u64) -> [u8; 20]
    ensures { result ≡ padded number }
{
    let mut text = [b' '; 20];
    write_digits(number, &mut text, 20);
    text
}

/// The bytes of the packet that rejects a login for this reason, `NOT_AUTHORIZED` or `SESSION_NOT_AVAILABLE`
/// (SoupBinTCP 3.00, Login Rejected Packet). It takes no memory.
pub fn rejected(reason: u8) -> ArrayVec<u8, 1026>
    ensures { result.items ≡ framed login_rejected (reason ∷ []) }
{
    frame(kinds::LOGIN_REJECTED, &[reason])
}
