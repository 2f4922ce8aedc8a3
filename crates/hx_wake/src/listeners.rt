//! Which slots listen to which members.

use crate::waker::Waker;
use hx_units::MemberNo;
use std::alloc::{AllocError, Global};

/// For each member the slots that listen to it, as a chain: by the member's number the first of them, and by a slot's
/// number the one after it. A slot listens to one member at a time. Slots count from 1, and 0 is none.
#[derive(Drop)]
pub struct Listeners {
    first: Vec<u16>,
    after: Vec<u16>,
}

impl Listeners {
    /// `slots` slots, none of which listens.
    pub fn new(alloc: Global, slots: u16) -> Result<Listeners, AllocError> {
        Ok(Listeners {
            first: vec![in alloc; 0; MemberNo::MAX as usize + 1]?,
            after: vec![in alloc; 0; slots as usize + 1]?,
        })
    }

    // The first slot that listens to a member.
    fn first(&self, member: MemberNo) -> u16 {
        match self.first.get(member.get() as usize) {
            Some(slot) => *slot,
            None => 0,
        }
    }

    // The slot after this one.
    fn after(&self, slot: u16) -> u16 {
        match self.after.get(slot as usize) {
            Some(after) => *after,
            None => 0,
        }
    }

    // Puts a slot first.
    fn set_first(&mut self, member: MemberNo, slot: u16) {
        if let Some(first) = self.first.get_mut(member.get() as usize) {
            *first = slot;
        }
    }

    // Puts a slot after another.
    fn set_after(&mut self, slot: u16, after: u16) {
        if let Some(next) = self.after.get_mut(slot as usize) {
            *next = after;
        }
    }

    /// The slot, which listened to nobody, listens to a member.
    pub fn add(&mut self, slot: u16, member: MemberNo) {
        let after = self.first(member);
        self.set_after(slot, after);
        self.set_first(member, slot);
    }

    // The slot before this one in a member's chain, or 0.
    fn in_front(&self, slot: u16, member: MemberNo) -> u16 {
        let mut at = self.first(member);
        for _ in 0..self.after.len() {
            let after = self.after(at);
            if at == 0 || after == slot {
                return at;
            }
            at = after;
        }
        0
    }

    /// The slot, which listened to this member, listens to nobody.
    pub fn remove(&mut self, slot: u16, member: MemberNo) {
        let after = self.after(slot);
        if self.first(member) == slot {
            self.set_first(member, after);
        } else {
            let front = self.in_front(slot, member);
            self.set_after(front, after);
        }
        self.set_after(slot, 0);
    }

    // Wakes the wakers of all slots that listen to a member. The waker of slot n is at index n - 1.
    fn wake_for(&self, wakers: &[Waker], member: MemberNo) {
        let mut slot = self.first(member);
        for _ in 0..wakers.len() {
            if slot == 0 {
                return;
            }
            if let Some(waker) = wakers.get(slot as usize - 1) {
                waker.wake();
            }
            slot = self.after(slot);
        }
    }

    /// Wakes the wakers of all slots that listen to one of these members.
    pub fn wake(&self, wakers: &[Waker], members: &[MemberNo]) {
        let mut last = None;
        for member in members {
            if last != Some(*member) {
                self.wake_for(wakers, *member);
                last = Some(*member);
            }
        }
    }
}
