//! Laws of the definition of the executions.
ghost use Rattle.hx_match.specs.Rules.{FirstIsRight, NoneIsLeft, MatchedOfMap, UncrossedIsNotMet};

/// What is executed next is before all other orders that cross and qualify; nothing is, exactly if none does.
pub fn first()
    ensures { FirstIsRight }
{}

/// When the executions are over, no order that stays crosses and qualifies for what is left.
pub fn none_is_left()
    ensures { NoneIsLeft }
{}

/// The executions of orders under keys are those of the orders.
pub fn matched_of_map()
    ensures { MatchedOfMap }
{}

/// An order that does not cross is not met: the executions without it are the same.
pub fn uncrossed_is_not_met()
    ensures { UncrossedIsNotMet }
{}
