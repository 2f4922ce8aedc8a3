//! A day that was replayed: its tape, its output, and what the report counts of it.
ghost use Rattle.std.specs.Prelude.{◌≡◌, List, IfOk, IfErr};
ghost use Rattle.hx_tape_lines.specs.Text.{Entry};
ghost use Rattle.hx_report.specs.Days.{IsDay, IsNoDay};

use crate::census::{Census, ChainMark, census_of};
use crate::marks::{Mark, marks_of};
use crate::rest::Rested;
use hx_members::{Member, Setup};
use hx_replay::{Counts, TapeError, replay};
use hx_units::MemberNo;
use std::alloc::Global;

/// A day: its tape, the text of its output, and what was noted of it.
#[derive(Drop)]
pub struct Day {
    pub(crate) setup: Setup,
    pub(crate) text: Vec<u8>,
    pub(crate) output: Vec<u8>,
    pub(crate) counts: Counts,
    pub(crate) marks: Vec<Mark>,
    pub(crate) chains: Vec<ChainMark>,
    pub(crate) rested: Vec<Rested>,
    pub(crate) traded: Vec<MemberNo>,
}

impl Day {
    /// The members of its setup.
    pub fn members(&self) -> &[Member]
        ensures { result.now ≡ self.now.setup.members }
    {
        self.setup.members()
    }

    /// Replays a tape, and notes what the report counts. The first line that fails a check is the error.
    pub fn of(alloc: Global, setup: &Setup, text: Vec<u8>) -> Result<Day, TapeError>
        ensures setup { IfOk result (λ day. day.setup ≡ setup.now) }
        ensures text { IfOk result (λ day. day.text ≡ text) }
        ensures day { IfOk result (λ day. (es : List Entry) × IsDay day es) }
        ensures err { IfErr result (IsNoDay setup.now text.items) }
    {
        let mut output = Vec::new(alloc);
        let mut reader = text.as_slice();
        let counts = replay(alloc, setup, &mut reader, &mut output)?;
        let marks = marks_of(alloc, setup, &text)?;
        let Census {
            chains,
            rested,
            traded,
        } = census_of(alloc, setup, &text)?;
        Ok(Day {
            setup: setup.copy(alloc)?,
            text,
            output,
            counts,
            marks,
            chains,
            rested,
            traded,
        })
    }
}
