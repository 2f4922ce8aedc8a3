//! Replays a tape, writes it without quiet chains, shows it in words, or reports it to an auditor, from standard input
//! to standard output; or serves a day, speaks to one that is served, or watches the feed of one.
#![tactic(auto)]

mod active;
mod addresses;
mod day_services;
mod failure;
mod hosting;
mod input;
mod journal;
mod logged;
mod operate;
mod plan;
mod relay;
mod serve;
mod watch;

use clap::ArgMatches;
use failure::Failure;
use hx_cli::{RunError, command, read_words, refuse, run_command};
use hx_log_commands::{copy_log, follow_log, hand_over, trim_log};
use journal::journal_file;
use log::Log;
use operate::operate_server;
use relay::relay_day;
use serve::serve_input;
use std::fs;
use std::net::{Net, TcpListener, TcpStream};
use std::process::ExitCode;
use std::random::RandomSource;
use std::rt::{Clock, Env, Files};
use std::sync::Wait;
use std::thread::Threads;
use watch::watch_feed;

fn answer<
    R: AllocGlobal
        + Input
        + Print
        + Eprint
        + Env
        + Files<File = fs::File>
        + Log
        + Net<Listener = TcpListener, Stream = TcpStream>
        + Clock
        + RandomSource
        + Threads
        + Wait
        + Sync,
>(rt: &R) -> Result<(), Failure>
where
    R::Reader: Send,
{
    let words = read_words(rt)?;
    match command(rt.alloc())?.try_get_matches_from(words.as_slice()) {
        Ok(matches) => perform(rt, &matches),
        Err(error) => Ok(refuse(rt, &error)?),
    }
}

fn perform<
    R: AllocGlobal
        + Input
        + Print
        + Eprint
        + Files<File = fs::File>
        + Log
        + Net<Listener = TcpListener, Stream = TcpStream>
        + Clock
        + RandomSource
        + Threads
        + Wait
        + Sync,
>(rt: &R, matches: &ArgMatches<'_>) -> Result<(), Failure>
where
    R::Reader: Send,
{
    let (name, own) = matches.subcommand().unwrap_or(("", matches));
    match name {
        "serve" => serve_input(rt, own),
        "watch" => watch_feed(rt, own),
        "operate" => operate_server(rt, own),
        "journal" => journal_file(rt, own),
        "follow" => Ok(follow_log(rt, own)?),
        "handover" => Ok(hand_over(rt, own)?),
        "copy" => Ok(copy_log(rt, own)?),
        "trim" => Ok(trim_log(rt, own)?),
        "relay" => relay_day(rt, own),
        _ => Ok(run_command(rt, matches)?),
    }
}

fn main(rt: HostRuntime) -> ExitCode {
    match answer(&rt) {
        Ok(()) => ExitCode::SUCCESS,
        Err(failure) => {
            if !matches!(
                failure,
                Failure::Run(RunError::CommandLine) | Failure::Refused
            ) {
                let _ = eprintln!(rt; "{failure}");
            }
            ExitCode::from(failure.status())
        }
    }
}
