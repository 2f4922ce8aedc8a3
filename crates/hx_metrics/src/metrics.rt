//! The figures as Prometheus reads them: one metric each.
ghost use Rattle.std.specs.Prelude.{◌≡◌, ◌++◌, IfOk, OnOk};
ghost use Rattle.hx_metrics.specs.Metrics.{state, hours_rows, session_rows, login_rows, event_rows, feed_rows, request_rows, journal_rows, metrics_text};

use crate::figures::Figures;
use crate::phase::Hours;
use crate::rows::Kind::{Counter, Gauge};
use crate::rows::{flag, write_flag, write_number, write_sample, write_time, write_title};
use std::alloc::{AllocError, Global};

fn write_sessions(text: &mut Vec<u8>, figures: &Figures) -> Result<(), AllocError>
    ensures { OnOk result (text.new.items ≡ text.old.items ++ session_rows figures.now) }
{
    write_number(
        text,
        "hx_sessions",
        Gauge,
        "Sessions that are logged in.",
        figures.sessions,
    )?;
    write_number(
        text,
        "hx_places",
        Gauge,
        "Sessions that can be logged in at a time.",
        figures.slots,
    )?;
    write_number(
        text,
        "hx_places_left",
        Gauge,
        "Places that are free.",
        figures.slots_left,
    )
}

fn write_logins(text: &mut Vec<u8>, figures: &Figures) -> Result<(), AllocError>
    ensures { OnOk result (text.new.items ≡ text.old.items ++ login_rows figures.now) }
{
    write_number(
        text,
        "hx_logins_accepted_total",
        Counter,
        "Logins that were accepted.",
        figures.logins_accepted,
    )?;
    write_number(
        text,
        "hx_logins_refused_total",
        Counter,
        "Logins that were refused.",
        figures.logins_refused,
    )?;
    write_number(
        text,
        "hx_closed_at_door_total",
        Counter,
        "Connections closed before their login.",
        figures.closed_at_acceptor,
    )
}

fn write_events(text: &mut Vec<u8>, figures: &Figures) -> Result<(), AllocError>
    ensures { OnOk result (text.new.items ≡ text.old.items ++ event_rows figures.now) }
{
    write_number(
        text,
        "hx_events_total",
        Counter,
        "Events that are recorded.",
        figures.events,
    )?;
    write_number(
        text,
        "hx_replies_total",
        Counter,
        "Replies to members.",
        figures.replies,
    )?;
    write_time(
        text,
        "hx_last_event_age_seconds",
        Gauge,
        "Seconds since the last event.",
        figures.last_event_age,
    )?;
    write_hours(text, figures.phase)
}

fn write_feed(text: &mut Vec<u8>, figures: &Figures) -> Result<(), AllocError>
    ensures { OnOk result (text.new.items ≡ text.old.items ++ feed_rows figures.now) }
{
    write_number(
        text,
        "hx_feed_messages_total",
        Counter,
        "Messages of the feed.",
        figures.feed_messages,
    )?;
    write_number(
        text,
        "hx_feed_slots_left",
        Gauge,
        "Messages that the feed has room for.",
        figures.feed_slots_left,
    )
}

fn write_requests(text: &mut Vec<u8>, figures: &Figures) -> Result<(), AllocError>
    ensures { OnOk result (text.new.items ≡ text.old.items ++ request_rows figures.now) }
{
    write_number(
        text,
        "hx_requests_answered_total",
        Counter,
        "Requests that were answered.",
        figures.requests_answered,
    )?;
    write_number(
        text,
        "hx_requests_refused_total",
        Counter,
        "Requests that were not answered.",
        figures.requests_refused,
    )
}

fn write_journal(text: &mut Vec<u8>, figures: &Figures) -> Result<(), AllocError>
    ensures { OnOk result (text.new.items ≡ text.old.items ++ journal_rows figures.now) }
{
    write_number(
        text,
        "hx_journal_waiting_events",
        Gauge,
        "Events that wait for the journal.",
        figures.journal_waiting,
    )?;
    write_number(
        text,
        "hx_journal_syncs_total",
        Counter,
        "Syncs of the journal.",
        figures.journal_syncs,
    )?;
    write_time(
        text,
        "hx_journal_sync_seconds_total",
        Counter,
        "Seconds of all syncs.",
        figures.journal_sync_time,
    )?;
    write_flag(
        text,
        "hx_journal_full",
        Gauge,
        "1 while the journal waits for room, else 0.",
        figures.journal_full,
    )
}

// One code of the hours.
fn write_state(text: &mut Vec<u8>, code: Hours, last: Hours) -> Result<(), AllocError>
    ensures { OnOk result (text.new.items ≡ text.old.items ++ state code last) }
{
    let is_last = code.letter() == last.letter();
    write_sample(text, "hx_system_event", code.letter(), flag(is_last))
}

// A sample for each code of the hours.
fn write_hours(text: &mut Vec<u8>, last: Option<Hours>) -> Result<(), AllocError>
    ensures { OnOk result (text.new.items ≡ text.old.items ++ hours_rows last) }
{
    let Some(last) = last else {
        return Ok(());
    };
    write_title(
        text,
        "hx_system_event",
        Gauge,
        "1 at the last code of the hours, else 0.",
    )?;
    write_state(text, Hours::StartOfMessages, last)?;
    write_state(text, Hours::StartOfSystemHours, last)?;
    write_state(text, Hours::StartOfMarketHours, last)?;
    write_state(text, Hours::EndOfMarketHours, last)?;
    write_state(text, Hours::EndOfSystemHours, last)?;
    write_state(text, Hours::EndOfMessages, last)
}

/// The figures in the text form of Prometheus, version 0.0.4: two lines and a sample of each. What
/// is not known is left out.
pub fn write_metrics(alloc: Global, figures: &Figures) -> Result<Vec<u8>, AllocError>
    ensures { IfOk result (λ text. text.items ≡ metrics_text figures.now) }
{
    let mut text = Vec::new(alloc);
    write_sessions(&mut text, figures)?;
    write_logins(&mut text, figures)?;
    write_events(&mut text, figures)?;
    write_feed(&mut text, figures)?;
    write_requests(&mut text, figures)?;
    write_journal(&mut text, figures)?;
    Ok(text)
}
