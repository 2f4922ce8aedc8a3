//! A history without the messages of listed quiet chains.
ghost use Rattle.std.specs.Prelude.{◌≡◌, ◌⊎◌, true, false, IfOk, OnOk, IfErr};
ghost use Rattle.std.specs.List.{AllByRecursion};
ghost use Rattle.hx_units.specs.declared.names.Token.{Token as TokenName};
ghost use Rattle.hx_market.specs.Steps.{run};
ghost use Rattle.hx_market.specs.QuietChains.{is_quiet, strike};
ghost use Rattle.hx_laws.specs.Laws.{chained_with};
ghost use Rattle.hx_audit.specs.Facts.{FactsTell};
ghost use Rattle.hx_audit.specs.Finding.{in_chains, AreChosen};
ghost use Rattle.hx_audit.specs.Recording.{AreRecorded, IsFirstLoud, ExplainsChains};
ghost use Rattle.hx_audit.specs.declared.fault.StrikeError.TheVariants.{NoMemory as OutOfMemory, NotQuiet};

use crate::applying::open;
use crate::chaining::take_all;
use crate::fault::StrikeError;
use crate::listing::Listing;
use crate::selection::{Selection, is_quiet, keep};
use hx_levels::LevelBook;
use hx_market::{Event, Market};
use hx_members::Setup;
use hx_units::{MemberNo, Token};
use indexmap::IndexMap;
use std::alloc::Global;

/// The tokens of a member that are in one chain with a listed one.
#[derive(Drop)]
struct InChains {
    member: MemberNo,
    listing: Listing,
    // Each chosen chain's entered token, with the token that lists it.
    chosen: IndexMap<Token, Token>,
}

impl Selection for InChains {
    ghost chosen = { λ s. in_chains s.member s.listing.uses.entries s.chosen.entries };

    fn has(&self, member: u16, token: &Token) -> bool {
        if member != self.member.get() {
            return false;
        }
        match self.listing.uses.get(token) {
            Some(entered) => self.chosen.contains_key(entered),
            None => false,
        }
    }
}

// The chains of these tokens, each of which is quiet.
fn choose(
    alloc: Global,
    market: &Market<LevelBook>,
    listing: &Listing,
    member: MemberNo,
    tokens: &[Token],
) -> Result<IndexMap<Token, Token>, StrikeError>
    requires { FactsTell market.now.market.chains }
    ensures quiet { OnOk result
        (AllByRecursion (λ t. is_quiet market.now.market member t ≡ true) tokens.now) }
    ensures chosen { IfOk result (λ chosen.
        AreChosen listing.now.uses.entries chosen.entries tokens.now) }
    ensures refused { IfErr result (λ e. (e ≡ OutOfMemory)
        ⊎ ((loud : TokenName) × (e ≡ NotQuiet loud)
        × IsFirstLoud market.now.market member tokens.now loud)) }
{
    let mut chosen = IndexMap::new(alloc);
    for token in tokens {
        if !is_quiet(market, member, token) {
            return Err(StrikeError::NotQuiet { token: *token });
        }
        chosen.insert(listing.entered(token), *token)?;
    }
    Ok(chosen)
}

/// The history without the messages that bear a token of the chains of the listed tokens, which are quiet tokens of
/// the member. The others are copied, in order; the market records these, too, whole.
///
/// `Refused` names the first event that the market refuses at its turn; `NotQuiet`, after it, the first listed token
/// that is not quiet. `NoMemory` if a growth was refused.
pub fn strike_chains(
    alloc: Global,
    setup: &Setup,
    events: &[Event],
    member: MemberNo,
    tokens: &[Token],
) -> Result<Vec<Event>, StrikeError>
    ensures recorded { OnOk result (AreRecorded setup.now events.now) }
    ensures quiet { OnOk result (AllByRecursion
        (λ t. is_quiet (run setup.now events.now) member t ≡ true) tokens.now) }
    ensures struck { IfOk result (λ retained. retained.items
        ≡ strike (chained_with member tokens.now (run setup.now events.now)) events.now) }
    ensures again { IfOk result (λ retained. AreRecorded setup.now retained.items) }
    ensures refused { IfErr result (ExplainsChains setup.now events.now member tokens.now) }
{
    let mut market = open(alloc, setup)?;
    let mut listing = Listing::new(alloc);
    take_all(&mut market, &mut listing, member, events)?;
    let chosen = choose(alloc, &market, &listing, member, tokens)?;
    let chains = InChains {
        member,
        listing,
        chosen,
    };
    Ok(keep(alloc, &chains, events)?)
}
