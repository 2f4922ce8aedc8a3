//! What the command line asks of a day, and the file of its journal.
use crate::failure::Failure;
use clap::ArgMatches;
use hx_day_journal::{DayFile, Syncs, Wanted, digest_of, open_journal};
use hx_engine::Recovered;
use hx_members::Setup;
use hx_serve::{Addresses, Counters, NoticeSink, OpenArgs, ServeArgs};
use hx_sessions::DropCopy;
use std::fs;
use std::rt::{Clock, Files};
use std::sync::atomic::AtomicU64;

// What the command line asks of a day, as it was read.
#[derive(Clone, Copy)]
pub(crate) struct Plan<'a> {
    pub(crate) setup: &'a Setup,
    // The text of the setup, unless it is the standard one.
    pub(crate) text: Option<&'a [u8]>,
    pub(crate) args: &'a ServeArgs,
    pub(crate) addresses: &'a Addresses,
    pub(crate) open: Option<OpenArgs>,
    // The day since 1970, and the last time that it gave.
    pub(crate) day: u64,
    pub(crate) last: &'a AtomicU64,
    // What is counted, and the drop copies.
    pub(crate) counters: &'a Counters,
    pub(crate) copies: &'a [DropCopy],
}

// When a journal is brought to the disk.
fn syncs_of(matches: &ArgMatches<'_>) -> Syncs {
    match matches.get_str("sync") {
        Some("never") => Syncs::Never,
        _ => Syncs::Group,
    }
}

// Opens the journal of a day in its file.
pub(crate) fn open_file<'x, R: AllocGlobal + Files<File = fs::File> + Clock, B: NoticeSink>(
    rt: &'x R,
    matches: &ArgMatches<'_>,
    plan: Plan<'_>,
    notice_sink: &'x B,
    path: &str,
) -> Result<Recovered<DayFile<'x, B, R>>, Failure> {
    let setup = digest_of(rt.alloc(), plan.text)?;
    let wanted = Wanted {
        session: plan.setup.session(),
        day: plan.day,
        setup: &setup,
        syncs: syncs_of(matches),
    };
    Ok(open_journal(rt, notice_sink, path, wanted)?)
}
