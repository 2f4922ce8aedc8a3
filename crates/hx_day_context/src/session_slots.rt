//! The session table of an open day: whose sessions run, and who may log in.

use hx_units::MemberNo;
use std::alloc::{AllocError, Global};
use std::net::SocketAddr;
use std::sync::atomic::{AtomicBool, Ordering};
use std::sync::{Mutex, Wait};

// The count of member numbers, 1 to 4,095, and of the operator's 0.
const NUMBERS: usize = 4096;

/// A session that runs.
#[derive(Clone, Copy, Debug, PartialEq, Eq)]
pub struct ActiveSession {
    /// The member who has logged in.
    pub member: MemberNo,
    /// From where.
    pub from: SocketAddr,
}

// A session slot, in which one session runs at a time.
#[derive(Drop)]
struct SessionSlot {
    active_session: Mutex<Option<ActiveSession>>,
    // Whether the operator wants the session to end.
    is_called: AtomicBool,
}

/// The session table of an open day, with one entry for each session slot, and who may log in.
#[derive(Drop)]
pub struct SessionSlots {
    session_slots: Vec<SessionSlot>,
    // By the members' numbers: whether a login of theirs is refused.
    refused: Vec<AtomicBool>,
    // Whether the time that sessions have after the day's end is over.
    is_late: AtomicBool,
}

impl SessionSlots {
    /// A table of `count` empty slots; everybody may log in.
    pub fn new(alloc: Global, count: usize) -> Result<SessionSlots, AllocError> {
        let mut session_slots = Vec::with_capacity(alloc, count)?;
        for _ in 0..count {
            session_slots.push(SessionSlot {
                active_session: Mutex::new(None),
                is_called: AtomicBool::new(false),
            })?;
        }
        let mut refused = Vec::with_capacity(alloc, NUMBERS)?;
        for _ in 0..NUMBERS {
            refused.push(AtomicBool::new(false))?;
        }
        Ok(SessionSlots {
            session_slots,
            refused,
            is_late: AtomicBool::new(false),
        })
    }

    /// The number of slots.
    pub fn len(&self) -> usize {
        self.session_slots.len()
    }

    /// Whether there are none.
    pub fn is_empty(&self) -> bool {
        self.session_slots.is_empty()
    }

    /// A session of a member begins in the slot.
    pub fn occupy(&self, rt: &impl Wait, session_slot: usize, active_session: ActiveSession) {
        if let Some(session_slot) = self.session_slots.get(session_slot) {
            session_slot.is_called.store(false, Ordering::SeqCst);
            *session_slot.active_session.lock(rt) = Some(active_session);
        }
    }

    /// The slot is empty again. Returns whether the operator had called its session off.
    pub fn vacate(&self, rt: &impl Wait, session_slot: usize) -> bool {
        let Some(session_slot) = self.session_slots.get(session_slot) else {
            return false;
        };
        *session_slot.active_session.lock(rt) = None;
        session_slot.is_called.swap(false, Ordering::SeqCst)
    }

    /// The session in this slot.
    pub fn active_session(&self, rt: &impl Wait, session_slot: usize) -> Option<ActiveSession> {
        let session_slot = self.session_slots.get(session_slot)?;
        *session_slot.active_session.lock(rt)
    }

    /// The number of slots that are taken.
    pub fn taken(&self, rt: &impl Wait) -> u64 {
        let mut taken: u64 = 0;
        for session_slot in &self.session_slots {
            if session_slot.active_session.lock(rt).is_some() {
                taken = taken.saturating_add(1);
            }
        }
        taken
    }

    /// Calls off the sessions of a member, and returns how many there were.
    pub fn call_off(&self, rt: &impl Wait, member: MemberNo) -> u64 {
        let mut count: u64 = 0;
        for session_slot in &self.session_slots {
            let active_session = *session_slot.active_session.lock(rt);
            if active_session.is_some_and(|active_session| active_session.member == member) {
                session_slot.is_called.store(true, Ordering::SeqCst);
                count = count.saturating_add(1);
            }
        }
        count
    }

    /// Whether the session in a slot is called off.
    pub fn is_called(&self, session_slot: usize) -> bool {
        match self.session_slots.get(session_slot) {
            Some(session_slot) => session_slot.is_called.load(Ordering::SeqCst),
            None => false,
        }
    }

    /// From now on a member may log in, or may not. The member's running sessions are left alone.
    pub fn permit(&self, member: MemberNo, may: bool) {
        if let Some(refused) = self.refused.get(member.get() as usize) {
            refused.store(!may, Ordering::SeqCst);
        }
    }

    /// Whether a member may log in.
    pub fn may_log_in(&self, member: MemberNo) -> bool {
        match self.refused.get(member.get() as usize) {
            Some(refused) => !refused.load(Ordering::SeqCst),
            None => true,
        }
    }

    /// The time that sessions have after the day's end is over: what they still write fails.
    pub fn hurry(&self) {
        self.is_late.store(true, Ordering::SeqCst);
    }

    /// Whether it is over.
    pub fn is_late(&self) -> bool {
        self.is_late.load(Ordering::SeqCst)
    }
}
