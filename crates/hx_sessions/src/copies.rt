//! Drop copies: logins that get the replies to another member, and may send nothing.
ghost use Rattle.std.specs.Prelude.{◌≡◌};
ghost use Rattle.hx_sessions.specs.Copies.{copied_by, read_by, may_send};

use hx_members::Setup;
use hx_units::MemberNo;

/// A login that gets the replies to another member, as a broker's risk desk or clearing firm does. It may send nothing.
#[derive(Clone, Copy, Debug, PartialEq, Eq)]
pub struct DropCopy {
    /// The member that logs in.
    pub login: MemberNo,
    /// The member whose replies the login gets.
    pub member: MemberNo,
}

/// Who may log in, and which of these logins are drop copies. Of two copies of one login the first counts.
#[derive(Clone, Copy)]
pub struct Logins<'a> {
    /// The members with their passwords.
    pub setup: &'a Setup,
    /// The drop copies.
    pub copies: &'a [DropCopy],
}

// The member whose replies a login is a copy of, if it is one.
fn copied_by(copies: &[DropCopy], login: MemberNo) -> Option<MemberNo>
    ensures { result ≡ copied_by copies.now login }
{
    for copy in copies {
        if copy.login == login {
            return Some(copy.member);
        }
    }
    None
}

/// The member whose replies a login gets: the one that it is a copy of, or else its own.
pub fn read_by(copies: &[DropCopy], login: MemberNo) -> MemberNo
    ensures { result ≡ read_by copies.now login }
{
    match copied_by(copies, login) {
        Some(member) => member,
        None => login,
    }
}

/// Whether a login may send messages: a copy may not.
pub fn may_send(copies: &[DropCopy], login: MemberNo) -> bool
    ensures { result ≡ may_send copies.now login }
{
    match copied_by(copies, login) {
        Some(_) => false,
        None => true,
    }
}
