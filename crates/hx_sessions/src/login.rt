//! The answer to a login.
ghost use Rattle.std.specs.Prelude.{◌≡◌, ◌-◌, ◌^◌, ◌<◌};
ghost use Rattle.hx_sessions.specs.Starts.{is_present, first_reply, start_of};

use crate::beginning::Start;
use hx_members::Setup;
use hx_soup::{LoginRequest, NOT_AUTHORIZED, SESSION_NOT_AVAILABLE, trimmed};

/// The answer to a login, if there are `replies` replies to that member (SoupBinTCP 3.00, Login Request Packet). The
/// first reply is the one that was asked for, or the next one if 0 or a number above it was asked. An error is the
/// letter of the rejection: `NOT_AUTHORIZED` for a user name or a password that no member has; else
/// `SESSION_NOT_AVAILABLE` for a session that is neither blank nor the setup's.
pub fn start(setup: &Setup, login: &LoginRequest, replies: u64) -> Result<Start, u8>
    requires { replies < 2 ^ 64 - 1 }
    ensures { result ≡ start_of setup.now login.now replies }
{
    let member = setup
        .login(&login.user, &login.password)
        .ok_or(NOT_AUTHORIZED)?;
    if !is_present(&login.session, setup.session()) {
        return Err(SESSION_NOT_AVAILABLE);
    }
    Ok(Start {
        member,
        first: first_reply(login.sequence, replies),
    })
}

// Whether the session that was asked for is the present one.
fn is_present(asked: &[u8], present: &[u8]) -> bool
    ensures { result ≡ is_present asked.now present.now }
{
    let asked = trimmed(asked);
    asked.is_empty() || asked == trimmed(present)
}

// The number of the first reply that is sent.
fn first_reply(asked: u64, replies: u64) -> u64
    requires { replies < 2 ^ 64 - 1 }
    ensures { result ≡ first_reply asked replies }
{
    if asked == 0 || asked > replies + 1 {
        return replies + 1;
    }
    asked
}
