//! The wakers of a venue's sessions.
ghost use Rattle.std.specs.Prelude.{◌≡◌, ◌<◌, ◌-◌, slice_index_or};

use crate::listeners::Listeners;
use crate::waker::Waker;
use hx_units::MemberNo;
use std::alloc::{AllocError, Global};
use std::sync::{Mutex, Wait};

/// A waker for each slot, and the members to whose replies the slots listen. Only threads with new output are woken.
#[derive(Drop)]
pub struct Wakers {
    wakers: Vec<Waker>,
    // For a slot that does not exist.
    spare: Waker,
    listeners: Mutex<Listeners>,
}

impl Wakers {
    /// A waker for each of n slots, which count from 1.
    pub fn new(alloc: Global, slots: u16) -> Result<Wakers, AllocError> {
        let mut wakers = Vec::with_capacity(alloc, slots as usize)?;
        for _ in 0..slots {
            wakers.push(Waker::new())?;
        }
        Ok(Wakers {
            wakers,
            spare: Waker::new(),
            listeners: Mutex::new(Listeners::new(alloc, slots)?),
        })
    }

    /// The waker of a slot. If there is no such slot, a waker that wakes nobody.
    pub fn waker(&self, slot: u16) -> &Waker
        ensures slot { 0 < slot
            → result.now ≡ slice_index_or self.now.wakers.items (slot - 1) self.now.spare }
        ensures none { slot ≡ 0 → result.now ≡ self.now.spare }
    {
        if slot == 0 {
            return &self.spare;
        }
        match self.wakers.get(slot as usize - 1) {
            Some(waker) => waker,
            None => &self.spare,
        }
    }

    /// The waker of a slot, which listened to nobody, wakes from now on when a member has news.
    pub fn listen(&self, rt: &impl Wait, slot: u16, member: MemberNo) {
        self.listeners.lock(rt).add(slot, member);
    }

    /// The waker of a slot, which listened to this member, wakes no more for it.
    pub fn leave(&self, rt: &impl Wait, slot: u16, member: MemberNo) {
        self.listeners.lock(rt).remove(slot, member);
    }

    /// Wakes every slot that listens to one of these members.
    pub fn wake(&self, rt: &impl Wait, members: &[MemberNo]) {
        if !members.is_empty() {
            self.listeners.lock(rt).wake(&self.wakers, members);
        }
    }

    /// Wakes every thread that sleeps at one of them.
    pub fn wake_all(&self) {
        for waker in &self.wakers {
            waker.wake();
        }
    }
}
