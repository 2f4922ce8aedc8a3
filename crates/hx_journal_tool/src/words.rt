//! What is reported of a journal, in words.

use crate::Cut;
use hx_journal::{HeadParts, Survey};
use std::fmt;
use std::fmt::Display;

// A word of a first line, whose bytes are all printed.
#[derive(Clone, Copy)]
struct Word<'a>(&'a [u8]);

impl Display for Word<'_> {
    fn fmt<W: fmt::Write>(&self, f: &mut fmt::Formatter<W>) -> fmt::Result {
        for byte in self.0 {
            f.write_char(*byte as char)?;
        }
        Ok(())
    }
}

// A number of something.
#[derive(Clone, Copy)]
struct Number<'a>(usize, &'a str);

impl Display for Number<'_> {
    fn fmt<W: fmt::Write>(&self, f: &mut fmt::Formatter<W>) -> fmt::Result {
        match self.0 {
            1 => write!(f, "1 {}", self.1),
            number => write!(f, "{number} {}s", self.1),
        }
    }
}

// What the first line says, a part on each line.
#[derive(Clone, Copy)]
struct FirstLine<'a>(Option<HeadParts<'a>>);

impl Display for FirstLine<'_> {
    fn fmt<W: fmt::Write>(&self, f: &mut fmt::Formatter<W>) -> fmt::Result {
        match self.0 {
            Some(head) => writeln!(
                f,
                "session {}\nday {}\nsetup {}",
                Word(head.session),
                Word(head.day),
                Word(head.setup)
            ),
            None => writeln!(f, "no first line of a journal"),
        }
    }
}

// What stands after the blocks.
#[derive(Clone, Copy)]
struct After<'a>(&'a Survey<'a>);

impl Display for After<'_> {
    fn fmt<W: fmt::Write>(&self, f: &mut fmt::Formatter<W>) -> fmt::Result {
        let After(survey) = *self;
        let torn = Number(survey.torn, "byte");
        match survey.damage {
            Some(_) => {
                let blocks = Number(survey.whole_after, "whole block");
                writeln!(f, "behind the damage {torn}, {blocks}")?;
            }
            None => writeln!(f, "torn end {torn}")?,
        }
        writeln!(f, "zeros ahead {}", Number(survey.zeros, "byte"))
    }
}

/// How far a journal goes: a fact on each line.
#[derive(Clone, Copy)]
pub struct Reported<'a>(pub &'a Survey<'a>);

impl Display for Reported<'_> {
    fn fmt<W: fmt::Write>(&self, f: &mut fmt::Formatter<W>) -> fmt::Result {
        let Reported(survey) = *self;
        write!(
            f,
            "{}events {}\nblocks {}\nwhole up to byte {}\n{}",
            FirstLine(survey.head),
            survey.records,
            survey.blocks,
            survey.end,
            After(survey)
        )
    }
}

impl Display for Cut {
    fn fmt<W: fmt::Write>(&self, f: &mut fmt::Formatter<W>) -> fmt::Result {
        let bytes = Number(self.bytes, "byte");
        let blocks = Number(self.blocks, "whole block");
        write!(f, "cut at byte {}: {bytes}, {blocks}", self.at)
    }
}
