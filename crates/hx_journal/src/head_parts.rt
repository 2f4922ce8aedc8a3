//! What the first line of a journal says.
ghost use Rattle.std.specs.Prelude.{◌≡◌, ◌≢◌, ◌↔◌, ℕ, List, IsTrue, IfSome, IfNone};
ghost use Rattle.hx_journal.specs.Heads.{IsWord, head_of};

use crate::head::{is_word, parts};

/// What the first line of a journal says, `#hx1 SESSION DAY SETUP`: three words.
#[derive(Clone, Copy, Debug, PartialEq, Eq)]
pub struct HeadParts<'a> {
    /// The session's name.
    pub session: &'a [u8],
    /// The day.
    pub day: &'a [u8],
    /// The digest of the setup's text.
    pub setup: &'a [u8],
}

/// What a line says as the first of a journal, or none if it is no such line.
pub fn read_head(line: &[u8]) -> Option<HeadParts<'_>>
    ensures some { IfSome result (λ h.
        line.now ≡ head_of h.session.now h.day.now h.setup.now) }
    ensures words { IfSome result (λ h.
        IsWord h.session.now × IsWord h.day.now × IsWord h.setup.now) }
    ensures none { IfNone result ((session day setup : List ℕ)
        → IsWord session → IsWord day → IsWord setup → line.now ≢ head_of session day setup) }
{
    let (session, day, setup) = parts(line)?;
    if !are_words(session, day, setup) {
        return None;
    }
    Some(HeadParts {
        session,
        day,
        setup,
    })
}

fn are_words(session: &[u8], day: &[u8], setup: &[u8]) -> bool
    ensures { IsTrue result ↔ (IsWord session.now × IsWord day.now × IsWord setup.now) }
{
    is_word(session) && is_word(day) && is_word(setup)
}
