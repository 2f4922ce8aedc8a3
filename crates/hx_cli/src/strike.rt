//! The command that writes a tape without quiet chains.

use crate::fault::RunError;
use crate::progress::WatchedInput;
use crate::setups::read_setup;
use clap::ArgMatches;
use hx_strike::{strike_all_tape, strike_tape};
use hx_units::MemberNo;
use std::io;
use std::rt::Files;

/// Writes the input without the messages of quiet chains: a member's, or those of all.
pub fn strike_input<R: AllocGlobal + Input + Print + Eprint + Files>(
    rt: &R,
    matches: &ArgMatches<'_>,
) -> Result<(), RunError> {
    let alloc = rt.alloc();
    let (mut input, mut writer) = (WatchedInput::new(rt), io::writer(rt));
    if matches.get_flag("all") {
        let setup = read_setup(rt, matches)?;
        let struck = strike_all_tape(alloc, &setup, &mut input, &mut writer);
        input.end();
        struck?;
        return Ok(());
    }
    let Some(member) = matches.get_one::<u16>("member").and_then(MemberNo::of) else {
        return Err(RunError::CommandLine);
    };
    let setup = read_setup(rt, matches)?;
    let struck = strike_tape(alloc, &setup, &mut input, &mut writer, member);
    input.end();
    struck?;
    Ok(())
}
