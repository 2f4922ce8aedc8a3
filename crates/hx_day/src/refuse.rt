//! Which events the market refuses.
ghost use Rattle.std.specs.Prelude.{◌≡◌, ◌<◌, IfOk, OnOk, IfErr, IfSome, IfNone, OnSome, Some, None, true, false};
ghost use Rattle.std.specs.Option.{option_map};
ghost use Rattle.hx_units.specs.Limits.{day};
ghost use Rattle.hx_rules.specs.Refusals.{known_member, is_from_stranger, limit_of, refusal};
ghost use Rattle.hx_rules.specs.Steps.{sender, time_of};
ghost use Rattle.hx_day.specs.Day.{MayRecord};

use crate::event_counts::EventCounts;
use hx_members::{Member, Setup};
use hx_rules::{Event, PrepareError};
use hx_units::{MemberNo, Nanos};

// The member of a number.
fn known_member(setup: &Setup, number: u16) -> Option<&Member>
    ensures { option_map (λ m. m.now) result ≡ known_member setup.now number }
{
    setup.member(MemberNo::of(number)?)
}

fn number_of(event: &Event) -> u16
    ensures { result ≡ sender event.now }
{
    match event {
        Event::Message { member, .. } => *member,
        Event::Tick { .. } | Event::Hours { .. } | Event::Halt { .. } | Event::Break { .. } => 0,
    }
}

fn time_of(event: &Event) -> u64
    ensures { result ≡ time_of event.now }
{
    match event {
        Event::Message { time, .. }
        | Event::Tick { time }
        | Event::Hours { time, .. }
        | Event::Halt { time, .. }
        | Event::Break { time, .. } => *time,
    }
}

// How many events may be recorded under the event's number; none if it is from no member of the setup.
fn limit_of(setup: &Setup, event: &Event) -> Option<u32>
    ensures limit { IfSome result (λ limit. limit ≡ limit_of setup.now event.now) }
    ensures known { OnSome result (is_from_stranger setup.now event.now ≡ false) }
    ensures stranger { IfNone result (is_from_stranger setup.now event.now ≡ true) }
{
    match event {
        Event::Message { member, .. } => Some(known_member(setup, *member)?.limit),
        Event::Tick { .. } | Event::Hours { .. } | Event::Halt { .. } | Event::Break { .. } => {
            Some(u32::MAX)
        }
    }
}

/// The number under which an event is recorded, unless it is refused, with these counts of recorded events of each
/// number.
pub fn admit(setup: &Setup, recorded: &EventCounts, event: &Event) -> Result<u16, PrepareError>
    ensures number { IfOk result (λ number. number ≡ sender event.now) }
    ensures may_record { IfOk result (λ number. MayRecord recorded.now number) }
    ensures known { OnOk result (is_from_stranger setup.now event.now ≡ false) }
    ensures time { OnOk result (time_of event.now < day) }
    ensures passes { OnOk result (refusal setup.now recorded.now event.now ≡ None) }
    ensures refused { IfErr result (λ e. refusal setup.now recorded.now event.now ≡ Some e) }
{
    if time_of(event) >= Nanos::DAY {
        return Err(PrepareError::BadTime);
    }
    let Some(limit) = limit_of(setup, event) else {
        return Err(PrepareError::NoMember);
    };
    let number = number_of(event);
    if recorded.count(number) >= limit {
        return Err(PrepareError::Limit { member: number });
    }
    Ok(number)
}
