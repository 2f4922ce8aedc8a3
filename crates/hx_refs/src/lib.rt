//! Reference numbers and match numbers.
#![tactic(auto)]

ghost use Rattle.std.specs.Prelude.{◌≡◌, ◌-◌, ◌<◌, ◌^◌, slice_index, IfOk};
ghost use Rattle.hx_refs.specs.Numbers.{opening_numbers, next_public, next_private, next_match, public_drawn, private_drawn, match_drawn};

use hx_units::{MemberNo, NoMemory};
use std::alloc::Global;
use std::marker::Model;

/// The reference numbers and match numbers drawn so far (ITCH 5.0: Order Reference Number and Match Number;
/// OUCH 4.2 has the same numbers).
///
/// A displayed order has a public reference, counted 1, 2, .. over the whole market. Any other order has a private one,
/// above `2^63`, counted 1, 2, .. over its member's own: so a reference that is shown reveals nothing of orders that
/// are not.
pub struct Refs {
    public: u64,
    private: Vec<u64>,
    matches: u64,
}

// By hand, so that when a value is dropped its owner's proof sees one call.
impl Drop for Refs {
    fn drop(self) {
        let Refs {
            public: _,
            private: _,
            matches: _,
        } = self;
    }
}

impl Model for Refs {
    ghost use Rattle.std.specs.Prelude.{◌≡◌, length};
    ghost use Rattle.hx_units.specs.Limits.{member_numbers};
    ghost use Rattle.hx_refs.specs.Numbers.{Numbers};

    ghost Value = { Numbers };

    ghost view = { λ r.
        record { public = r.public; private = r.private.items; matches = r.matches } };

    ghost invariant = { λ r. length r.private.items ≡ member_numbers };
}

impl Refs {
    /// How many member numbers there are, with 0, which is nobody's.
    const NUMBERS: usize = 4096;

    /// No number is drawn yet. It fails only when out of memory.
    pub fn new(alloc: Global) -> Result<Self, NoMemory>
        ensures { IfOk result (λ refs. refs ≡ opening_numbers) }
    {
        Ok(Refs {
            public: 0,
            private: vec![in alloc; 0; Self::NUMBERS]?,
            matches: 0,
        })
    }

    /// Draws the next public reference.
    pub fn public(&mut self) -> u64
        requires { self.old.public < 2 ^ 62 }
        ensures value { result ≡ next_public self.old }
        ensures drawn { self.new ≡ public_drawn self.old }
    {
        self.public += 1;
        self.public
    }

    /// Draws the member's next private reference.
    pub fn private(&mut self, member: MemberNo) -> u64
        requires { slice_index self.old.private member < 2 ^ 40 - 1 }
        ensures value { result ≡ next_private self.old member }
        ensures drawn { self.new ≡ private_drawn self.old member }
    {
        let member = member.get();
        let count = self.private[member as usize] + 1;
        self.private[member as usize] = count;
        (1 << 63) + (member as u64 * (1 << 40) + count)
    }

    /// Draws the next match number.
    pub fn matched(&mut self) -> u64
        requires { self.old.matches < 2 ^ 62 }
        ensures value { result ≡ next_match self.old }
        ensures drawn { self.new ≡ match_drawn self.old }
    {
        self.matches += 1;
        self.matches
    }
}
