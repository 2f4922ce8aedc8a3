//! How an open day stands, in lines for its operator.

use crate::day_context::DayContext;
use hx_engine::{Exchange, Journal, Venue};
use hx_units::Symbol;
use std::alloc::{AllocError, Global};
use std::fmt::Write;
use std::sync::Wait;
use std::sync::atomic::Ordering;

// A name without the spaces on its right.
fn name_of(symbol: Symbol) -> [u8; 8] {
    symbol.0
}

// Writes the part of the hours, and the halted stocks.
fn write_market<B>(text: &mut Vec<u8>, day_context: &DayContext<'_, B>) -> Result<(), AllocError> {
    text.extend_from_slice(b"hours ")?;
    match day_context.trading_status.phase() {
        Some(code) => text.push(code)?,
        None => text.extend_from_slice(b"not begun")?,
    }
    text.push(b'\n')?;
    for (index, stock) in day_context.setup.stocks().iter().enumerate() {
        if day_context.trading_status.is_halted(index) {
            text.extend_from_slice(b"halted ")?;
            text.extend_from_slice(name_of(stock.symbol).trim_ascii_end())?;
            text.push(b'\n')?;
        }
    }
    Ok(())
}

// Writes who is logged in, and who may not log in.
fn write_sessions<B>(
    rt: &impl Wait,
    alloc: Global,
    text: &mut Vec<u8>,
    day_context: &DayContext<'_, B>,
) -> Result<(), AllocError> {
    let session_slots = day_context.session_slots;
    let mut lines = String::new(alloc);
    let _ = write!(
        lines,
        "sessions {} of {}\n",
        session_slots.taken(rt),
        session_slots.len()
    );
    for session_slot in 0..session_slots.len() {
        if let Some(active_session) = session_slots.active_session(rt, session_slot) {
            let _ = write!(
                lines,
                "member {} from {}\n",
                active_session.member.get(),
                active_session.from
            );
        }
    }
    for member in day_context.setup.members() {
        if !session_slots.may_log_in(member.number) {
            let _ = write!(lines, "member {} may not log in\n", member.number.get());
        }
    }
    text.extend_from_slice(lines.as_bytes())
}

// Writes how far the exchange is.
fn write_counts<V: Venue, J: Journal + Drop, B>(
    rt: &impl Wait,
    alloc: Global,
    text: &mut Vec<u8>,
    exchange: &Exchange<V, J>,
    day_context: &DayContext<'_, B>,
) -> Result<(), AllocError> {
    let counts = exchange.counts(rt);
    let waiting = counts.recorded.saturating_sub(counts.published_end);
    let room = day_context.capacity.saturating_sub(counts.feed);
    let mut lines = String::new(alloc);
    let _ = write!(
        lines,
        "events {}\nfeed {}, room for {room}\n",
        counts.recorded, counts.feed
    );
    let journal = if exchange.failure(rt).is_some() {
        "failed"
    } else if day_context.counters.waits.load(Ordering::SeqCst) {
        "full"
    } else {
        "ready"
    };
    let _ = write!(lines, "journal {journal}, {waiting} waiting\n");
    text.extend_from_slice(lines.as_bytes())
}

/// Writes how an open day stands: the part of the hours and the halted stocks, the sessions with their members and
/// addresses, how many events and messages of the feed there are, and how the journal is. This is for the operator
/// alone.
pub fn write_status<V: Venue, J: Journal + Drop, B>(
    rt: &impl Wait,
    alloc: Global,
    text: &mut Vec<u8>,
    exchange: &Exchange<V, J>,
    day_context: &DayContext<'_, B>,
) -> Result<(), AllocError> {
    write_market(text, day_context)?;
    write_counts(rt, alloc, text, exchange, day_context)?;
    write_sessions(rt, alloc, text, day_context)
}
