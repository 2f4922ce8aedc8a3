//! The trading status of a day: its phase, and which stocks are halted.

use hx_market::Event;
use hx_members::Setup;
use std::alloc::{AllocError, Global};
use std::sync::atomic::{AtomicBool, AtomicU8, Ordering};

// The codes of the hours, in their order (ITCH 5.0, System Event Message).
const HOURS: [u8; 6] = *b"OSQMEC";

// The number of codes that are past if a setup begins with `start open`: `O` and `S`.
const OPEN: u8 = 2;

// A stock is halted (ITCH 5.0, Stock Trading Action Message).
const HALTED: u8 = b'H';

/// What an event of the operator would do now.
#[derive(Clone, Copy, Debug, PartialEq, Eq)]
pub enum Stage {
    /// It may be recorded.
    Now,
    /// It is a code of the hours that is past: it would do nothing.
    Past,
    /// It is a code of the hours before which another one comes: it would do nothing.
    TooEarly,
    /// It names a stock that is none of the day's: it would do nothing.
    NoStock,
}

/// The phase of the day and the halted stocks, by the operator's events that were recorded. It is shown to the operator
/// alone.
#[derive(Drop)]
pub struct TradingStatus {
    // How many codes of the hours are past.
    past: AtomicU8,
    // By the stocks' indices in the setup.
    halted: Vec<AtomicBool>,
}

impl TradingStatus {
    /// The trading status of a new day.
    pub fn new(alloc: Global, setup: &Setup) -> Result<TradingStatus, AllocError> {
        let count = setup.stocks().len();
        let mut halted = Vec::with_capacity(alloc, count)?;
        for _ in 0..count {
            halted.push(AtomicBool::new(false))?;
        }
        let past = if setup.start_open() { OPEN } else { 0 };
        Ok(TradingStatus {
            past: AtomicU8::new(past),
            halted,
        })
    }

    /// What an event would do now.
    pub fn stage(&self, setup: &Setup, event: &Event) -> Stage {
        match event {
            Event::Hours { code, .. } => {
                let past = self.past.load(Ordering::SeqCst) as usize;
                match HOURS.iter().position(|other| other == code) {
                    Some(index) if index == past => Stage::Now,
                    Some(index) if index < past => Stage::Past,
                    _ => Stage::TooEarly,
                }
            }
            Event::Halt { stock, .. } if setup.locate(*stock).is_none() => Stage::NoStock,
            _ => Stage::Now,
        }
    }

    /// An event was recorded. A code that is not the next one does nothing.
    pub fn note(&self, setup: &Setup, event: &Event) {
        match event {
            Event::Hours { code, .. } => {
                let past = self.past.load(Ordering::SeqCst);
                if HOURS.get(past as usize) == Some(code) {
                    self.past.store(past.saturating_add(1), Ordering::SeqCst);
                }
            }
            Event::Halt { stock, state, .. } => {
                let index = setup.locate(*stock).unwrap_or(0) as usize;
                if let Some(halted) = self.halted.get(index.wrapping_sub(1)) {
                    halted.store(*state == HALTED, Ordering::SeqCst);
                }
            }
            Event::Message { .. } | Event::Tick { .. } | Event::Break { .. } => {}
        }
    }

    /// How many codes of the hours are past.
    pub fn past(&self) -> u8 {
        self.past.load(Ordering::SeqCst)
    }

    /// The last code of the hours that is past, if there is one.
    pub fn phase(&self) -> Option<u8> {
        let past = self.past.load(Ordering::SeqCst) as usize;
        HOURS.get(past.checked_sub(1)?).copied()
    }

    /// Whether the stock at this index of the setup, counted from 0, is halted.
    pub fn is_halted(&self, index: usize) -> bool {
        match self.halted.get(index) {
            Some(halted) => halted.load(Ordering::SeqCst),
            None => false,
        }
    }
}
