//! Passes, each of which sends its members' events in a thread of its own.

use crate::failure::Failure;
use hx_engine::{Exchange, Journal, Pass, Venue};
use hx_market::Event;
use hx_units::NoMemory;
use std::alloc::Global;
use std::mem::replace;
use std::sync::Wait;
use std::thread;
use std::thread::Threads;

/// What one thread sends, a list for each call, and whether any of it was refused.
#[derive(Drop)]
pub struct Sender<V: Venue> {
    pass: Pass<V>,
    calls: Vec<Vec<Event>>,
    refused: bool,
}

impl<V: Venue> Sender<V> {
    // Submits several events, in the number of turns at the lock that they take. Returns whether they are recorded.
    fn call_all<R: Wait, J: Journal + Drop>(
        &mut self,
        rt: &R,
        exchange: &Exchange<V, J>,
        events: Vec<Event>,
    ) -> bool {
        let mut left = events;
        for _ in 0..left.len() {
            if left.is_empty() {
                break;
            }
            match exchange.submit_all(rt, &mut self.pass, left) {
                Ok(submitted) => left = submitted.rest,
                Err(_) => return false,
            }
            exchange.wake_feed();
        }
        true
    }

    // Submits the events of one call. Returns whether they are recorded. One event is a `submit`, more are a
    // `submit_all`.
    fn call<R: Wait, J: Journal + Drop>(
        &mut self,
        rt: &R,
        exchange: &Exchange<V, J>,
        events: Vec<Event>,
    ) -> bool {
        match events.as_slice() {
            [] => true,
            [event] => exchange.submit(rt, &mut self.pass, event).is_ok(),
            _ => self.call_all(rt, exchange, events),
        }
    }

    fn send_all<R: Wait, J: Journal + Drop>(
        &mut self,
        rt: &R,
        alloc: Global,
        exchange: &Exchange<V, J>,
    ) {
        for events in replace(&mut self.calls, Vec::new(alloc)) {
            self.refused |= !self.call(rt, exchange, events);
        }
    }
}

// The member of an event, or 0 for those of the operator.
fn member_of(event: &Event) -> u16 {
    match event {
        Event::Message { member, .. } => *member,
        _ => 0,
    }
}

// Puts an event into the last call, or begins another one.
fn add(
    alloc: Global,
    calls: &mut Vec<Vec<Event>>,
    event: Event,
    each: usize,
) -> Result<(), NoMemory> {
    match calls.last_mut() {
        Some(call) if call.len() < each => call.push(event)?,
        _ => {
            let mut call = Vec::with_capacity(alloc, each)?;
            call.push(event)?;
            calls.push(call)?;
        }
    }
    Ok(())
}

/// A sender for each pass, with `each` events a call. The members take turns: each pass has its own.
pub fn hire<V: Venue>(
    alloc: Global,
    passes: Vec<Pass<V>>,
    each: usize,
    events: Vec<Event>,
) -> Result<Vec<Sender<V>>, NoMemory> {
    let mut senders = Vec::new(alloc);
    for pass in passes {
        senders.push(Sender {
            pass,
            calls: Vec::new(alloc),
            refused: false,
        })?;
    }
    let count = senders.len().max(1);
    for event in events {
        let index = member_of(&event) as usize % count;
        if let Some(sender) = senders.get_mut(index) {
            add(alloc, &mut sender.calls, event, each)?;
        }
    }
    Ok(senders)
}

/// All send at once, each in a thread of its own.
pub fn send_at_once<V: Venue + Send + Sync, J: Journal + Drop + Send, R: Threads + Wait + Sync>(
    rt: &R,
    alloc: Global,
    exchange: &Exchange<V, J>,
    senders: &mut Vec<Sender<V>>,
) {
    let threads = senders.len().max(1);
    thread::for_each_mut(
        rt,
        senders,
        threads,
        &|_, sender| sender.send_all(rt, alloc, exchange),
    );
}

/// The passes, if none of their events was refused.
pub fn passes_of<V: Venue>(
    alloc: Global,
    senders: Vec<Sender<V>>,
) -> Result<Vec<Pass<V>>, Failure> {
    let mut passes = Vec::new(alloc);
    for sender in senders {
        if sender.refused {
            return Err(Failure::Refused);
        }
        passes.push(sender.pass)?;
    }
    Ok(passes)
}
