//! One pass over a day: its market takes each event, and what the report counts of it is noted.
ghost use Rattle.std.specs.Prelude.{◌≡◌, ◌++◌, ◌∷◌, [], Some, None, List, map, IfOk, OnOk, IfSome, IfNone};
ghost use Rattle.std.specs.List.{cons_option};
ghost use Rattle.hx_units.specs.Ranges.{IsMember};
ghost use Rattle.hx_members.specs.Setups.{Setup as SetupOf};
ghost use Rattle.hx_rules.specs.declared.event.Event.{Event as Happening};
ghost use Rattle.hx_market.specs.Steps.{sender};
ghost use Rattle.hx_tape_lines.specs.Text.{Entry, line as line_of, tape};
ghost use Rattle.hx_tape_lines.specs.Events.{IsKnown, event_of};
ghost use Rattle.hx_replay.specs.Run.{start, AreEvents};
ghost use Rattle.hx_report.specs.Counts.{is_execution};
ghost use Rattle.hx_report.specs.Noted.{begun_by, traders_in, is_quiet_chain, chain_mark, HasNoted, IsCensus};

use crate::rest::{Rested, note_rested};
use hx_levels::LevelBook;
use hx_market::{Bytes, Event, Market, Output};
use hx_members::Setup;
use hx_ouch::{Inbound, Outbound, decode_in};
use hx_tape_lines::read_event;
use hx_units::{MemberNo, NoMemory, Token, split_once};
use std::alloc::Global;

// A chain: whose it is, and its entered token.
#[derive(Clone, Copy, Debug, Drop)]
struct Begun {
    member: MemberNo,
    entered: Token,
}

/// A chain: whose it is, and whether it was never displayed and never traded.
#[derive(Clone, Copy, Debug, Drop)]
pub(crate) struct ChainMark {
    pub(crate) member: MemberNo,
    pub(crate) quiet: bool,
}

/// What was noted of a day: its chains, the hidden shares that came to rest, and the members that traded.
#[derive(Drop)]
pub(crate) struct Census {
    pub(crate) chains: Vec<ChainMark>,
    pub(crate) rested: Vec<Rested>,
    pub(crate) traded: Vec<MemberNo>,
}

// What was noted of a day so far, and its market.
#[derive(Drop)]
struct Notes {
    market: Market<LevelBook>,
    output: Output,
    begun: Vec<Begun>,
    rested: Vec<Rested>,
    traded: Vec<MemberNo>,
}

// The chain that an event begins: one of a token that is entered, and was not used before.
fn chain_begun(market: &Market<LevelBook>, event: &Event) -> Option<Begun>
    ensures some { IfSome result (λ begun. begun_by market.now.market event.now ≡ Some begun) }
    ensures none { IfNone result (IsMember (sender event.now)
        → begun_by market.now.market event.now ≡ None) }
{
    let Event::Message { member, bytes, .. } = event else {
        return None;
    };
    let member = MemberNo::of(*member)?;
    let Some(Inbound::Enter(enter)) = decode_in(bytes.as_slice()) else {
        return None;
    };
    if market.chain(member, &enter.token).is_some() {
        return None;
    }
    Some(Begun {
        member,
        entered: enter.token,
    })
}

// Notes a chain, if one is begun.
fn note_begun(list: &mut Vec<Begun>, begun: Option<Begun>) -> Result<(), NoMemory>
    ensures { OnOk result (list.new.items ≡ list.old.items ++ cons_option begun []) }
{
    if let Some(begun) = begun {
        list.push(begun)?;
    }
    Ok(())
}

// Whether a reply reports an execution.
fn is_execution(reply: &Outbound) -> bool
    ensures { result ≡ is_execution reply.now }
{
    matches!(reply, Outbound::Executed(_))
}

// Notes the members that traded by an event, once for each execution.
fn note_traded(traded: &mut Vec<MemberNo>, replies: &[(MemberNo, Outbound)]) -> Result<(), NoMemory>
    ensures { OnOk result (traded.new.items ≡ traded.old.items ++ traders_in replies.now) }
{
    for (member, reply) in replies {
        if is_execution(reply) {
            traded.push(*member)?;
        }
    }
    Ok(())
}

impl Notes {
    // Of nothing yet.
    fn new(alloc: Global, setup: &Setup) -> Result<Notes, NoMemory>
        ensures { IfOk result (λ notes. HasNoted notes setup.now []) }
    {
        Ok(Notes {
            market: Market::new(alloc, setup.copy(alloc)?, LevelBook::new(alloc))?,
            output: Output {
                feed: Vec::new(alloc),
                replies: Vec::new(alloc),
            },
            begun: Vec::new(alloc),
            rested: Vec::new(alloc),
            traded: Vec::new(alloc),
        })
    }

    // Takes the next event.
    fn take(&mut self, event: &Event) -> Result<(), NoMemory>
        ensures { OnOk result ((setup : SetupOf) (events : List Happening)
            → HasNoted self.old setup events
            → HasNoted self.new setup (events ++ event.now ∷ [])) }
    {
        let begun = chain_begun(&self.market, event);
        self.output.feed.clear();
        self.output.replies.clear();
        if self.market.apply(event, &mut self.output).is_err() {
            return Err(NoMemory);
        }
        note_begun(&mut self.begun, begun)?;
        note_traded(&mut self.traded, &self.output.replies)?;
        note_rested(&mut self.rested, &self.output.replies)?;
        Ok(())
    }
}

// Takes the event of a line, whose digits are read into a buffer.
fn take_line(
    alloc: Global,
    room: &mut Vec<u8>,
    notes: &mut Notes,
    text: &[u8],
) -> Result<(), NoMemory>
    ensures { OnOk result ((setup : SetupOf) (es : List Entry) (e : Entry) → IsKnown e
        → text.now ≡ line_of e → HasNoted notes.old setup (map event_of es)
        → HasNoted notes.new setup (map event_of (es ++ e ∷ []))) }
{
    let Some(event) = read_event(alloc, room, Bytes::none(), text)? else {
        return Err(NoMemory);
    };
    notes.take(&event)?;
    Ok(())
}

// Takes the lines of a tape.
fn take_lines(alloc: Global, setup: &Setup, text: &[u8]) -> Result<Notes, NoMemory>
    ensures { IfOk result (λ notes. (es : List Entry) → AreEvents (start setup.now) es
        → text.now ≡ tape es → HasNoted notes setup.now (map event_of es)) }
{
    let mut notes = Notes::new(alloc, setup)?;
    let mut room = Vec::new(alloc);
    let mut rest = text;
    while let Some((line, others)) = split_once(rest, b'\n') {
        take_line(alloc, &mut room, &mut notes, line)?;
        rest = others;
    }
    Ok(notes)
}

// Whether a chain was never displayed and never traded.
fn is_quiet(market: &Market<LevelBook>, chain: &Begun) -> bool
    ensures { result ≡ is_quiet_chain market.now.market chain.now }
{
    match market.chain(chain.member, &chain.entered) {
        Some(facts) => !(facts.displayed || facts.traded),
        None => false,
    }
}

// Whether each chain is quiet.
fn chain_marks(
    alloc: Global,
    market: &Market<LevelBook>,
    begun: &[Begun],
) -> Result<Vec<ChainMark>, NoMemory>
    ensures { IfOk result (λ chains. chains.items
        ≡ map (chain_mark market.now.market) begun.now) }
{
    let mut chains = Vec::new(alloc);
    for chain in begun {
        chains.push(ChainMark {
            member: chain.member,
            quiet: is_quiet(market, chain),
        })?;
    }
    Ok(chains)
}

/// What is noted of a day, whose tape a replay has taken. Only memory can be wanting.
pub(crate) fn census_of(alloc: Global, setup: &Setup, text: &[u8]) -> Result<Census, NoMemory>
    ensures { IfOk result (λ census. (es : List Entry) → AreEvents (start setup.now) es
        → text.now ≡ tape es → IsCensus census setup.now (map event_of es)) }
{
    let Notes {
        market,
        begun,
        rested,
        traded,
        ..
    } = take_lines(alloc, setup, text)?;
    Ok(Census {
        chains: chain_marks(alloc, &market, &begun)?,
        rested,
        traded,
    })
}
