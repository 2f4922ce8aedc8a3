//! Selections: which tokens of which members are struck.
ghost use Rattle.std.specs.Prelude.{◌≡◌, IfOk};
ghost use Rattle.hx_market.specs.QuietChains.{is_quiet, strike};
ghost use Rattle.hx_audit.specs.Auditing.{choice_of, is_chosen, is_borne};
ghost use Rattle.hx_audit.specs.Facts.{FactsTell, AreOfMembers};

use crate::auditor::Whose;
use crate::bearing::Bearing;
use hx_levels::LevelBook;
use hx_market::{Event, Market};
use hx_units::{MemberNo, NoMemory, Token};
use std::alloc::Global;

/// A choice of tokens of members.
pub(crate) trait Selection {
    ghost use Rattle.hx_market.specs.QuietChains.{Choice};

    ghost chosen: { Self → Choice };

    /// Whether the member's token is chosen.
    fn has(&self, member: u16, token: &Token) -> bool
        ensures { result ≡ chosen self.now member token.now };
}

/// Whether a token of the member is used, in a chain that was never displayed and never traded.
pub(crate) fn is_quiet(market: &Market<LevelBook>, member: MemberNo, token: &Token) -> bool
    requires { FactsTell market.now.market.chains }
    ensures { result ≡ is_quiet market.now.market member token.now }
{
    match market.chain(member, token) {
        Some(facts) => !facts.displayed && !facts.traded,
        None => false,
    }
}

// Whether the predicate holds of this number.
fn is_quiet_of_number(market: &Market<LevelBook>, member: u16, token: &Token) -> bool
    requires tell { FactsTell market.now.market.chains }
    requires of_members { AreOfMembers market.now.market.tokens }
    ensures { result ≡ is_quiet market.now.market member token.now }
{
    match MemberNo::of(member) {
        Some(member) => is_quiet(market, member, token),
        None => false,
    }
}

/// Whether the token of this number is quiet, and the number is a member's whose chains are struck.
pub(crate) fn is_quiet_of(
    market: &Market<LevelBook>,
    whose: Whose,
    member: u16,
    token: &Token,
) -> bool
    requires tell { FactsTell market.now.market.chains }
    requires of_members { AreOfMembers market.now.market.tokens }
    ensures { result ≡ choice_of whose market.now.market member token.now }
{
    match whose {
        Whose::Of(one) => member == one.get() && is_quiet(market, one, token),
        Whose::OfAll => is_quiet_of_number(market, member, token),
    }
}

// Whether the token, if there is one, is chosen.
fn is_chosen<S: Selection>(selection: &S, member: u16, token: Option<Token>) -> bool
    ensures { result ≡ is_chosen (S.chosen selection.now) member token }
{
    match token {
        Some(token) => selection.has(member, &token),
        None => false,
    }
}

/// Whether one of the tokens is chosen.
pub(crate) fn is_borne<S: Selection>(selection: &S, bearing: &Bearing) -> bool
    ensures { result ≡ is_borne (S.chosen selection.now) bearing.now }
{
    is_chosen(selection, bearing.member, bearing.first)
        || is_chosen(selection, bearing.member, bearing.second)
}

/// Copies of the events that bear no chosen token.
pub(crate) fn keep<S: Selection>(
    alloc: Global,
    selection: &S,
    events: &[Event],
) -> Result<Vec<Event>, NoMemory>
    ensures { IfOk result (λ retained. retained.items ≡ strike (S.chosen selection.now) events.now) }
{
    let mut retained = Vec::new(alloc);
    for event in events {
        if !is_borne(selection, &Bearing::of(event)) {
            retained.push(event.copy()?)?;
        }
    }
    Ok(retained)
}
