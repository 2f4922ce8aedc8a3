//! Many sessions at once.
ghost use Rattle.std.specs.Prelude.{ℕ, ◌≡◌, ◌<◌, ◌≤◌, ◌+◌, ◌++◌, [], Some, None, IfOk, IfErr, filter_map, option_map, length, map, slice_index_or, vec_capacity, vec_len};
ghost use Rattle.std.specs.List.{cons_option};
ghost use Rattle.std.specs.Thread.{IsSend, IsSync};
ghost use Rattle.hx_sessions.specs.Served.{ServesWaiting, ServesAll};

use crate::clock_and_gate::{Clock, Gate};
use crate::copies::Logins;
use crate::ending::{Ended, Fault};
use crate::part::Part;
use crate::session::Session;
use hx_engine::{Exchange, Journal, Venue};
use hx_wake::Source;
use std::alloc::Global;
use std::io::{Read, Write};
use std::sync::Wait;
use std::thread::{Threads, for_each_mut};
use std::time::Clock as Timer;

// A part after its session, and how that ended.
type Served<V, R, W, C> = (Part<V, R, W, C>, Result<Ended, Fault>);

// A part that waits for its session, and the part after the session.
#[derive(Drop)]
struct Slot<V: Venue, R, W, C> {
    waiting: Option<Part<V, R, W, C>>,
    served: Option<Served<V, R, W, C>>,
}

// Serves the part that waits in a slot.
fn serve<
    V: Venue + Send + Sync,
    J: Journal + Drop + Send,
    R: Read + Source + Send + Drop,
    W: Write + Send + Drop,
    C: Clock + Send + Drop,
    G: Gate + Sync,
    T: Threads + Wait + Timer + Sync,
>(
    rt: &T,
    alloc: Global,
    exchange: &Exchange<V, J>,
    logins: &Logins<'_>,
    gate: &G,
    turns: u64,
    slot: &mut Slot<V, R, W, C>,
)
    ensures { ServesWaiting V.setup
        logins.now.setup.now logins.now.copies.now
        (option_map (λ p. record {
          input = R.remaining p.input;
          output = W.contents p.output;
          pass = p.pass;
          reader = p.reader;
        }) slot.old.waiting)
        (option_map (λ s. (
          record {
            input = R.remaining s.0.input;
            output = W.contents s.0.output;
            pass = s.0.pass;
            reader = s.0.reader;
          },
          s.1,
        )) slot.new.served) }
{
    if let Some(part) = slot.waiting.take() {
        slot.served = Some(Session::run(rt, alloc, exchange, logins, part, gate, turns));
    }
}

// Serves the parts that wait in all slots at once.
fn serve_slots<
    V: Venue + Send + Sync,
    J: Journal + Drop + Send,
    R: Read + Source + Send + Drop,
    W: Write + Send + Drop,
    C: Clock + Send + Drop,
    G: Gate + Sync,
    T: Threads + Wait + Timer + Sync,
>(
    rt: &T,
    alloc: Global,
    exchange: &Exchange<V, J>,
    logins: &Logins<'_>,
    gate: &G,
    turns: u64,
    slots: &mut [Slot<V, R, W, C>],
)
    requires { 0 < length slots.old }
    ensures len { length slots.new ≡ length slots.old }
    ensures each { (i : ℕ) (d : _) → i < length slots.old → ServesWaiting V.setup
        logins.now.setup.now logins.now.copies.now
        (option_map (λ p. record {
          input = R.remaining p.input;
          output = W.contents p.output;
          pass = p.pass;
          reader = p.reader;
        }) (slice_index_or slots.old i d).waiting)
        (option_map (λ s. (
          record {
            input = R.remaining s.0.input;
            output = W.contents s.0.output;
            pass = s.0.pass;
            reader = s.0.reader;
          },
          s.1,
        )) (slice_index_or slots.new i d).served) }
{
    let count = slots.len();
    let each = |_index: usize, slot: &mut Slot<V, R, W, C>|
        requires { IsSend V.row × IsSend J.row × IsSend R.row × IsSend W.row × IsSend C.row
            × IsSync V.row × IsSync G.row × IsSync T.row }
        ensures { ServesWaiting V.setup
            logins.entry.now.setup.now logins.entry.now.copies.now
            (option_map (λ p. record {
              input = R.remaining p.input;
              output = W.contents p.output;
              pass = p.pass;
              reader = p.reader;
            }) slot.entry.now.waiting)
            (option_map (λ s. (
              record {
                input = R.remaining s.0.input;
                output = W.contents s.0.output;
                pass = s.0.pass;
                reader = s.0.reader;
              },
              s.1,
            )) slot.exit.now.served) }
    { serve(rt, alloc, exchange, logins, gate, turns, slot) };
    for_each_mut(rt, slots, count, &each);
}

// Puts each part into a slot of its own.
fn wait_all<V: Venue, R: Drop, W: Drop, C: Drop>(
    parts: Vec<Part<V, R, W, C>>,
    slots: &mut Vec<Slot<V, R, W, C>>,
)
    requires empty { slots.old.items ≡ [] }
    requires room { vec_len parts ≤ vec_capacity slots.old }
    ensures { slots.new.items ≡ map (λ p. record { waiting = Some p; served = None }) parts.items }
{
    for part in parts {
        slots.push_reserved(Slot {
            waiting: Some(part),
            served: None,
        });
    }
}

// Puts what was served in a slot after the others.
fn put<V: Venue, R: Drop, W: Drop, C: Drop>(
    all: &mut Vec<Served<V, R, W, C>>,
    slot: Slot<V, R, W, C>,
)
    requires { vec_len all.old < vec_capacity all.old }
    ensures items { all.new.items ≡ all.old.items ++ cons_option slot.served [] }
    ensures few { vec_len all.new ≤ vec_len all.old + 1 }
    ensures room { vec_capacity all.new ≡ vec_capacity all.old }
{
    let Slot { waiting: _, served } = slot;
    if let Some(served) = served {
        all.push_reserved(served);
    }
}

// Takes what was served out of each slot.
fn take_all<V: Venue, R: Drop, W: Drop, C: Drop>(
    slots: Vec<Slot<V, R, W, C>>,
    all: &mut Vec<Served<V, R, W, C>>,
)
    requires empty { all.old.items ≡ [] }
    requires room { vec_len slots ≤ vec_capacity all.old }
    ensures { all.new.items ≡ filter_map (λ s. s.served) slots.items }
{
    for slot in slots {
        put(all, slot);
    }
}

/// Runs one session per part, all at the same time, and returns their results in the parts' order. If there is no
/// memory, nothing has run, and the parts come back.
pub fn serve_all<
    V: Venue + Send + Sync,
    J: Journal + Drop + Send,
    R: Read + Source + Send + Drop,
    W: Write + Send + Drop,
    C: Clock + Send + Drop,
    G: Gate + Sync,
    T: Threads + Wait + Timer + Sync,
>(
    rt: &T,
    alloc: Global,
    exchange: &Exchange<V, J>,
    logins: &Logins<'_>,
    parts: Vec<Part<V, R, W, C>>,
    gate: &G,
    turns: u64,
) -> Result<Vec<(Part<V, R, W, C>, Result<Ended, Fault>)>, Vec<Part<V, R, W, C>>>
    ensures ok { IfOk result (λ all. ServesAll V.setup
        logins.now.setup.now logins.now.copies.now
        (map (λ p. record {
          input = R.remaining p.input;
          output = W.contents p.output;
          pass = p.pass;
          reader = p.reader;
        }) parts.items)
        (map (λ s. (
          record {
            input = R.remaining s.0.input;
            output = W.contents s.0.output;
            pass = s.0.pass;
            reader = s.0.reader;
          },
          s.1,
        )) all.items)) }
    ensures err { IfErr result (λ back. back ≡ parts) }
{
    let count = parts.len();
    if count == 0 {
        return Ok(Vec::new(alloc));
    }
    let Ok(mut slots) = Vec::with_capacity(alloc, count) else {
        return Err(parts);
    };
    let Ok(mut all) = Vec::with_capacity(alloc, count) else {
        return Err(parts);
    };
    wait_all(parts, &mut slots);
    serve_slots(rt, alloc, exchange, logins, gate, turns, &mut slots);
    take_all(slots, &mut all);
    Ok(all)
}
