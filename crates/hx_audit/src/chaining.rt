//! The chains of a member.
ghost use Rattle.std.specs.Prelude.{◌≡◌, [], ◌∷◌, ◌++◌, map, None, IfOk, OnOk, IfErr, ◌&&◌, not, is_some};
ghost use Rattle.std.specs.Map.{lookup};
ghost use Rattle.hx_units.specs.Names.{is_token};
ghost use Rattle.hx_members.specs.Chains.{is_used};
ghost use Rattle.hx_members.specs.Setups.{member_of};
ghost use Rattle.hx_market.specs.Refusals.{refusal};
ghost use Rattle.hx_market.specs.Markets.{opening};
ghost use Rattle.hx_market.specs.Steps.{step, run};
ghost use Rattle.hx_audit.specs.Listing.{uses_of, grouped, output_chain, chains_of};
ghost use Rattle.hx_audit.specs.Finding.{AreOutput};
ghost use Rattle.hx_audit.specs.Recording.{AreRecorded, Explains, IsErrorAt};

use crate::applying::{open, take_event};
use crate::chain::{Chain, ChainTokens};
use crate::fault::StrikeError;
use crate::listing::{Listing, event_names};
use hx_levels::LevelBook;
use hx_market::{Event, Market};
use hx_members::Setup;
use hx_units::{MemberNo, NoMemory, Token};
use indexmap::IndexMap;
use std::alloc::Global;

// Whether the member has used the token, and it is not listed yet.
fn is_new_use(
    market: &Market<LevelBook>,
    listing: &Listing,
    member: MemberNo,
    token: &Token,
) -> bool
    ensures { result ≡ (is_used market.now.market.tokens member token.now
        && not (is_some (lookup (is_token token.now) listing.now.uses.entries))) }
{
    market.chain(member, token).is_some() && !listing.has(token)
}

// The market takes the event of this index, and the token that the member uses by it is listed.
fn take_and_list(
    market: &mut Market<LevelBook>,
    listing: &mut Listing,
    member: MemberNo,
    index: u64,
    event: &Event,
) -> Result<(), StrikeError>
    requires listed { listing.old.uses.entries ≡ uses_of market.old.market.tokens member }
    requires grouped { listing.old.chains.entries ≡ grouped listing.old.uses.entries }
    ensures setup { market.new.setup ≡ market.old.setup }
    ensures passes { OnOk result
        (refusal market.old.setup market.old.market.recorded event.now ≡ None) }
    ensures market { OnOk result
        (market.new.market ≡ (step market.old.setup market.old.market event.now).market) }
    ensures listed { OnOk result
        (listing.new.uses.entries ≡ uses_of market.new.market.tokens member) }
    ensures grouped { OnOk result (listing.new.chains.entries ≡ grouped listing.new.uses.entries) }
    ensures refused { IfErr result (IsErrorAt index
        (refusal market.old.setup market.old.market.recorded event.now)) }
{
    take_event(market, index, event)?;
    let Some(naming) = event_names(event, member) else {
        return Ok(());
    };
    if !is_new_use(market, listing, member, &naming.token) {
        return Ok(());
    }
    let entered = listing.entered(&naming.existing);
    listing.add(naming.token, entered)?;
    Ok(())
}

/// The opening market takes the events, and the tokens that the member uses by them are listed.
pub(crate) fn take_all(
    market: &mut Market<LevelBook>,
    listing: &mut Listing,
    member: MemberNo,
    events: &[Event],
) -> Result<(), StrikeError>
    requires opening { market.old.market ≡ opening market.old.setup }
    requires none { listing.old.uses.entries ≡ [] }
    requires grouped { listing.old.chains.entries ≡ [] }
    ensures recorded { OnOk result (AreRecorded market.old.setup events.now) }
    ensures market { OnOk result (market.new.market ≡ run market.old.setup events.now) }
    ensures chains { OnOk result (
        listing.new.chains.entries
        ≡ grouped (uses_of (run market.old.setup events.now).tokens member)) }
    ensures uses { OnOk result (
        listing.new.uses.entries ≡ uses_of (run market.old.setup events.now).tokens member) }
    ensures refused { IfErr result (Explains market.old.setup events.now) }
{
    for (index, event) in events.iter().enumerate() {
        take_and_list(market, listing, member, index as u64, event)?;
    }
    Ok(())
}

// Each chain with what it has done.
fn tell(
    alloc: Global,
    market: &Market<LevelBook>,
    member: MemberNo,
    groups: IndexMap<Token, ChainTokens>,
) -> Result<Vec<Chain>, NoMemory>
    requires { AreOutput market.now.market member groups.entries }
    ensures { IfOk result (λ chains.
        chains.items ≡ map (output_chain market.now.market.chains member) groups.entries) }
{
    let mut chains = Vec::new(alloc);
    for (entered, tokens) in groups {
        let facts = market.chain(member, &entered).unwrap();
        chains.push(Chain { tokens, facts })?;
    }
    Ok(chains)
}

/// The chains of a member after the history, by first use: each with its tokens in order of use, those of rejected
/// Enters and of failed replaces included, and what it has done. A number that the setup has not has none.
///
/// `Refused` names the first event that the market refuses at its turn. `NoMemory` if a growth was refused.
pub fn chains(
    alloc: Global,
    setup: &Setup,
    events: &[Event],
    member: MemberNo,
) -> Result<Vec<Chain>, StrikeError>
    ensures recorded { OnOk result (AreRecorded setup.now events.now) }
    ensures chains { IfOk result (λ chains.
        chains.items ≡ chains_of (run setup.now events.now) member) }
    ensures stranger { IfOk result (λ chains.
        member_of setup.now member ≡ None → chains.items ≡ []) }
    ensures refused { IfErr result (Explains setup.now events.now) }
{
    let mut market = open(alloc, setup)?;
    let mut listing = Listing::new(alloc);
    take_all(&mut market, &mut listing, member, events)?;
    Ok(tell(alloc, &market, member, listing.into_chains())?)
}
