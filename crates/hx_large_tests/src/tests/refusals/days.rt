//! The days over which calls go wrong, and the two calls that run a tape.

use hx_replay::{Counts, TapeError, replay};
use hx_strike::strike_tape;
use hx_testing::Day;
use hx_testing::lines::split_line;
use hx_testing::setups::{CLOSED, STANDARD, setup_of};
use hx_testing::worked::{
    CHAIN_THAT_TRADED, HOURS_OF_A_DAY, MINIMUM_PASSED_OVER, REPLACES_THAT_TRADE,
    TWO_END_AT_ONE_TICK,
};
use hx_units::{MemberNo, NoMemory};
use std::alloc::Global;
use std::io::{Read, Write};
use std::test::Fail;

/// A worked day: the text of its setup, and its events in words.
#[derive(Clone, Copy)]
pub struct Worked {
    pub setup: &'static [u8],
    pub words: &'static str,
    // The events, counted from 1, that bear a token of the first member's quiet chains.
    quiet: &'static [u64],
}

/// Days of hidden orders and minimums, of Replaces, of the hours, and of orders that end at a tick.
pub const DAYS: [Worked; 5] = [
    Worked {
        setup: STANDARD,
        words: MINIMUM_PASSED_OVER,
        quiet: &[1],
    },
    Worked {
        setup: STANDARD,
        words: CHAIN_THAT_TRADED,
        quiet: &[],
    },
    Worked {
        setup: STANDARD,
        words: REPLACES_THAT_TRADE,
        quiet: &[],
    },
    // Two orders are rejected: before the system hours, and after the market hours.
    Worked {
        setup: CLOSED,
        words: HOURS_OF_A_DAY,
        quiet: &[2, 9],
    },
    Worked {
        setup: STANDARD,
        words: TWO_END_AT_ONE_TICK,
        quiet: &[],
    },
];

/// What is run over a tape.
#[derive(Clone, Copy, PartialEq, Eq)]
pub enum Command {
    /// `replay`.
    Replay,
    /// `strike_tape`, of the first member.
    Strike,
}

/// A command, the text of its setup, the tape that it reads, and all that it writes.
#[derive(Drop)]
pub struct Case {
    pub command: Command,
    pub setup: &'static [u8],
    pub tape: Vec<u8>,
    pub whole: Vec<u8>,
}

// The lines of a tape except for these, counted from 1.
fn without(alloc: Global, tape: &[u8], numbers: &[u64]) -> Result<Vec<u8>, NoMemory> {
    let mut retained = Vec::new(alloc);
    let mut rest = tape;
    for number in 1..u64::MAX {
        let Some((line, others)) = split_line(rest) else {
            break;
        };
        if !numbers.contains(&number) {
            retained.extend_from_slice(line)?;
            retained.push(b'\n')?;
        }
        rest = others;
    }
    Ok(retained)
}

impl Case {
    /// This command over a worked day.
    pub fn of(alloc: Global, command: Command, worked: &Worked) -> Result<Case, Fail> {
        let Day { tape, output } = Day::of(alloc, worked.words)?;
        let whole = match command {
            Command::Replay => output,
            Command::Strike => without(alloc, &tape, worked.quiet)?,
        };
        Ok(Case {
            command,
            setup: worked.setup,
            tape,
            whole,
        })
    }

    /// Runs the command.
    pub fn run<R: Read, W: Write>(
        &self,
        alloc: Global,
        reader: &mut R,
        writer: &mut W,
    ) -> Result<Result<Counts, TapeError>, Fail> {
        let setup = setup_of(alloc, self.setup)?;
        Ok(match self.command {
            Command::Replay => replay(alloc, &setup, reader, writer),
            Command::Strike => {
                let member = MemberNo::of(1).ok_or("no number of a member")?;
                strike_tape(alloc, &setup, reader, writer, member)
            }
        })
    }
}
