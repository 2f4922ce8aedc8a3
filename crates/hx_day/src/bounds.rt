//! Laws of a market over its definitions alone: no number overflows, and no chain executes more shares than one
//! message may have. The bounds (`specs/Bounds.antt`) hold of the market that a day begins with, and stay whatever its
//! events do. Each function is a proved statement, and does nothing.
ghost use Rattle.hx_day.specs.BoundLaws.{OfTheOpening, OfARecord, OfAnEnter, OfARejection, OfAReplace, OfAFailedReplace, OfACancel, OfAnEnd};

/// The bounds hold when the day begins, and stay when an event is only recorded.
pub fn at_the_opening()
    ensures opening { OfTheOpening }
    ensures recorded { OfARecord }
{}

/// They stay when an order is accepted, whatever it executes, and when it is rejected.
pub fn after_an_enter()
    ensures accepted { OfAnEnter }
    ensures rejected { OfARejection }
{}

/// They stay when an order replaces another, and when none does.
pub fn after_a_replace()
    ensures replaced { OfAReplace }
    ensures failed { OfAFailedReplace }
{}

/// They stay when shares are canceled, and when orders end.
pub fn after_a_cancel()
    ensures canceled { OfACancel }
    ensures ended { OfAnEnd }
{}
