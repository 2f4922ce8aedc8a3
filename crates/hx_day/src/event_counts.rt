//! How many events are recorded.
ghost use Rattle.std.specs.Prelude.{◌≡◌, ◌<◌, IfOk, slice_index};
ghost use Rattle.hx_units.specs.Limits.{member_numbers};
ghost use Rattle.hx_refs.specs.Numbers.{raised};
ghost use Rattle.hx_rules.specs.Markets.{no_counts};
ghost use Rattle.hx_day.specs.Day.{MayRecord};

use hx_units::NoMemory;
use std::alloc::Global;
use std::marker::Model;

/// How many events of each member number are recorded, and under number 0 how many of the operator's.
#[derive(Drop)]
pub struct EventCounts {
    counts: Vec<u32>,
}

impl Model for EventCounts {
    ghost use Rattle.std.specs.Prelude.{◌≡◌, ℕ, List, length};
    ghost use Rattle.hx_units.specs.Limits.{member_numbers};

    ghost Value = { List ℕ };

    ghost view = { λ r. r.counts.items };

    ghost invariant = { λ r. length r.counts.items ≡ member_numbers };
}

impl EventCounts {
    /// None are. `NoMemory` if the counts find no memory.
    pub fn new(alloc: Global) -> Result<EventCounts, NoMemory>
        ensures { IfOk result (λ recorded. recorded ≡ no_counts) }
    {
        Ok(EventCounts {
            counts: vec![in alloc; 0; 4096]?,
        })
    }

    /// How many of a number.
    pub fn count(&self, number: u16) -> u32
        requires { number < member_numbers }
        ensures { result ≡ slice_index self.now number }
    {
        self.counts[number as usize]
    }

    /// One more of a number.
    pub fn raise(&mut self, number: u16)
        requires { MayRecord self.old number }
        ensures { self.new ≡ raised self.old number }
    {
        self.counts[number as usize] += 1;
    }
}
