//! What others get of an output text.
ghost use Rattle.std.specs.Prelude.{◌≡◌, IfOk, ◌++◌, ◌∷◌, [], codes};
ghost use Rattle.std.specs.Fmt.{decimal};
ghost use Rattle.hx_units.specs.Letters.{space};
ghost use Rattle.hx_replay.specs.Grep.{begins_with, of_member};
ghost use Rattle.hx_report.specs.Looks.{pick_of, is_seen};

use hx_units::MemberNo;
use itoa::Buffer;
use std::alloc::{AllocError, Global};
use std::marker::Model;

/// The readers of an output text.
#[derive(Clone, Copy, Debug, PartialEq, Eq)]
pub enum Look {
    /// Everybody but this member: all lines except the replies to it.
    AllBut(MemberNo),
    /// A reader of the feed: its lines alone.
    Feed,
}

/// The lines that a reader gets: those that begin so, or those that do not. Contracts see which.
#[derive(Drop)]
pub struct Sieve {
    beginning: Vec<u8>,
    keeps: bool,
}

impl Model for Sieve {
    ghost use Rattle.hx_report.specs.Looks.{Pick};

    ghost Value = { Pick };

    ghost view = { λ s. record { keeps = s.keeps; beginning = s.beginning.items } };
}

// How the lines of the replies to a member begin.
fn replies_to(alloc: Global, member: MemberNo) -> Result<Vec<u8>, AllocError>
    ensures { IfOk result (λ v. v.items ≡ of_member member) }
{
    let mut buffer = Buffer::new();
    let mut beginning = Vec::from_slice(alloc, b"M ")?;
    beginning.extend_from_slice(buffer.format(member.get()).as_bytes())?;
    beginning.push(b' ')?;
    Ok(beginning)
}

// Whether a line begins with these bytes.
fn begins(line: &[u8], beginning: &[u8]) -> bool
    ensures { result ≡ begins_with beginning.now line.now }
{
    line.starts_with(beginning)
}

impl Sieve {
    /// The lines that someone gets; an error if memory is wanting.
    pub fn of(alloc: Global, look: Look) -> Result<Sieve, AllocError>
        ensures { IfOk result (λ s. s ≡ pick_of look) }
    {
        Ok(match look {
            Look::AllBut(member) => Sieve {
                beginning: replies_to(alloc, member)?,
                keeps: false,
            },
            Look::Feed => Sieve {
                beginning: Vec::from_slice(alloc, b"F ")?,
                keeps: true,
            },
        })
    }

    /// Whether the reader gets a line.
    pub(crate) fn has(&self, line: &[u8]) -> bool
        ensures { result ≡ is_seen self.now line.now }
    {
        let is_so = begins(line, &self.beginning);
        if self.keeps { is_so } else { !is_so }
    }
}
