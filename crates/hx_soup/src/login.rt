//! What a client logs in with (SoupBinTCP 3.00, Login Request Packet).
ghost use Rattle.std.specs.Prelude.{ℕ, ◌≡◌, ◌^◌, ◌<◌, Some, IfSome};
ghost use Rattle.std.specs.Char.{is_ascii_digit};
ghost use Rattle.std.specs.List.{list_all};
ghost use Rattle.std.specs.Option.{SomeIff};
ghost use Rattle.std.specs.Str.Parse.{AllDigits, digits_value};
ghost use Rattle.hx_soup.specs.Logins.{SpellsNumber, IsLogin};
ghost use Rattle.hx_soup.specs.declared.login.LoginRequest.{LoginRequest};

use hx_units::fields::array_at;
use hx_units::trimmed;
use std::fmt::{self, Debug, Formatter, Write};
use std::str;

/// The user that logs in, and the number from which on it wants sequenced messages (SoupBinTCP 3.00, Login Request
/// Packet).
#[derive(Clone, Copy, PartialEq, Eq)]
pub struct LoginRequest {
    /// The user name, filled with spaces (Username).
    pub user: [u8; 6],
    /// The password, filled with spaces (Password).
    pub password: [u8; 10],
    /// The session, or spaces for the present one (Requested Session).
    pub session: [u8; 10],
    /// The number of the first message wanted, counted from 1, or 0 for the next one (Requested Sequence Number).
    pub sequence: u64,
}

// By hand, without the password.
impl Debug for LoginRequest {
    fn fmt<W: Write>(&self, f: &mut Formatter<W>) -> fmt::Result {
        f.debug_struct("LoginRequest")
            .field("user", &self.user)
            .field("session", &self.session)
            .field("sequence", &self.sequence)
            .finish_non_exhaustive()
    }
}

/// The login that the payload of a packet is, or none if it is none: if it is not 46 bytes long, and if its last 20 are
/// not spaces, digits and spaces that spell a number below 2^64 (SoupBinTCP 3.00, Login Request Packet). It takes no
/// memory.
pub fn decode_login(payload: &[u8]) -> Option<LoginRequest>
    ensures found { IfSome result (IsLogin payload.now) }
    ensures only { (login : LoginRequest) → IsLogin payload.now login → result ≡ Some login }
{
    if payload.len() != 46 {
        return None;
    }
    let sequence = read_number(&payload[26..46])?;
    Some(LoginRequest {
        user: array_at(payload, 0),
        password: array_at(payload, 6),
        session: array_at(payload, 16),
        sequence,
    })
}

// The number that spaces, digits and spaces spell.
fn read_number(text: &[u8]) -> Option<u64>
    ensures found { IfSome result (SpellsNumber text.now) }
    ensures only { (n : ℕ) → SpellsNumber text.now n → result ≡ Some n }
{
    read_digits(trimmed(text))
}

// The number that digits spell, 0 if there is none.
fn read_digits(digits: &[u8]) -> Option<u64>
    ensures { SomeIff result
        (AllDigits 10 digits.now × (digits_value 10 digits.now < 2 ^ 64))
        (digits_value 10 digits.now) }
{
    if digits.is_empty() {
        return Some(0);
    }
    if !are_digits(digits) {
        return None;
    }
    str::from_utf8(digits).ok()?.parse().ok()
}

// Whether all bytes are decimal digits.
fn are_digits(text: &[u8]) -> bool
    ensures { result ≡ list_all is_ascii_digit text.now }
{
    text.iter().all(|byte| byte.is_ascii_digit())
}
