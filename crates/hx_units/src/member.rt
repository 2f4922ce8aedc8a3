//! The numbers of members.
ghost use Rattle.std.specs.Prelude.{◌≡◌, ◌↔◌, ℕ, IsSome, IfSome};
ghost use Rattle.hx_units.specs.Ranges.{IsMember};

use std::marker::Model;

/// A member's number, from 1 to 4,095. The operator, which has number 0, is no member.
#[derive(Clone, Copy, Debug, PartialEq, Eq, PartialOrd, Ord, Hash)]
pub struct MemberNo {
    number: u16,
}

impl Model for MemberNo {
    ghost Value = { ℕ };

    ghost view = { λ m. m.number };

    ghost invariant = { λ m. IsMember m.number };

    ghost inverse = { λ n. record { number = n } };
}

impl MemberNo {
    /// The greatest number that a member may have.
    pub const MAX: u16 = 4095;

    /// The member of this number, or none if no member may have it.
    pub fn of(number: u16) -> Option<MemberNo>
        ensures exists { IsSome result ↔ IsMember number }
        ensures value { IfSome result (λ member. member ≡ number) }
    {
        if number == 0 || number > Self::MAX {
            return None;
        }
        Some(MemberNo { number })
    }

    /// The number, from 1 to `MAX`.
    pub fn get(self) -> u16
        ensures value { result ≡ self }
        ensures range { IsMember self }
    {
        self.number
    }
}
