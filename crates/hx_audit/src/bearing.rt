//! The tokens that an event bears.
ghost use Rattle.std.specs.Prelude.{◌≡◌, Some, false};
ghost use Rattle.hx_market.specs.QuietChains.{Choice, message_bears, bears};
ghost use Rattle.hx_audit.specs.Auditing.{is_borne};

use hx_market::Event;
use hx_ouch::{Inbound, decode_in};
use hx_units::Token;

/// The tokens that an event bears: those of a member's readable message, two at most. The operator's events and
/// unreadable messages bear none.
#[derive(Clone, Copy, Debug)]
pub struct Bearing {
    pub(crate) member: u16,
    pub(crate) first: Option<Token>,
    pub(crate) second: Option<Token>,
}

// What a member's message bears.
fn of_message(member: u16, message: &Inbound) -> Bearing
    ensures { (choice : Choice) → is_borne choice result
        ≡ message_bears choice member (Some message.now) }
{
    let (first, second) = match message {
        Inbound::Enter(enter) => (enter.token, None),
        Inbound::Replace(replace) => (replace.existing_token, Some(replace.replacement_token)),
        Inbound::Cancel(cancel) => (cancel.token, None),
    };
    Bearing {
        member,
        first: Some(first),
        second,
    }
}

impl Bearing {
    // No tokens.
    fn none() -> Bearing
        ensures { (choice : Choice) → is_borne choice result ≡ false }
    {
        Bearing {
            member: 0,
            first: None,
            second: None,
        }
    }

    /// What an event bears. The message is read once.
    pub fn of(event: &Event) -> Bearing
        ensures { (choice : Choice) → is_borne choice result ≡ bears choice event.now }
    {
        let Event::Message { member, bytes, .. } = event else {
            return Bearing::none();
        };
        match decode_in(bytes.as_slice()) {
            Some(message) => of_message(*member, &message),
            None => Bearing::none(),
        }
    }
}
