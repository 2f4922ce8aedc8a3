//! A history without the messages of quiet chains.
ghost use Rattle.std.specs.Prelude.{◌≡◌, IfOk, OnOk, IfErr, None};
ghost use Rattle.hx_members.specs.Setups.{member_of};
ghost use Rattle.hx_market.specs.QuietChains.{strike_one, strike_all};
ghost use Rattle.hx_audit.specs.Recording.{AreRecorded, Explains};

use crate::auditor::{Auditor, Whose};
use crate::fault::StrikeError;
use crate::selection::keep;
use hx_market::Event;
use hx_members::Setup;
use hx_units::MemberNo;
use std::alloc::Global;

/// The history without the messages that bear a token of the member's quiet chains: those that the whole history never
/// displayed and never traded. The others are copied, in order; the market records these, too, whole. A number that the
/// setup has not has no tokens, so all events are retained.
///
/// `Refused` names the first event that the market refuses at its turn. `NoMemory` if a growth was refused.
pub fn strike(
    alloc: Global,
    setup: &Setup,
    events: &[Event],
    member: MemberNo,
) -> Result<Vec<Event>, StrikeError>
    ensures recorded { OnOk result (AreRecorded setup.now events.now) }
    ensures struck { IfOk result (λ retained. retained.items ≡ strike_one setup.now member events.now) }
    ensures again { IfOk result (λ retained. AreRecorded setup.now retained.items) }
    ensures stranger { IfOk result (λ retained.
        member_of setup.now member ≡ None → retained.items ≡ events.now) }
    ensures refused { IfErr result (Explains setup.now events.now) }
{
    let auditor = Auditor::of(alloc, setup, Whose::Of(member), events)?;
    Ok(keep(alloc, &auditor, events)?)
}

/// The history without each message that bears a quiet token of its own member, whichever that is. The others are
/// copied, in order; the market records these, too, whole.
///
/// `Refused` names the first event that the market refuses at its turn. `NoMemory` if a growth was refused.
pub fn strike_all(alloc: Global, setup: &Setup, events: &[Event]) -> Result<Vec<Event>, StrikeError>
    ensures recorded { OnOk result (AreRecorded setup.now events.now) }
    ensures struck { IfOk result (λ retained. retained.items ≡ strike_all setup.now events.now) }
    ensures again { IfOk result (λ retained. AreRecorded setup.now retained.items) }
    ensures refused { IfErr result (Explains setup.now events.now) }
{
    let auditor = Auditor::of(alloc, setup, Whose::OfAll, events)?;
    Ok(keep(alloc, &auditor, events)?)
}
