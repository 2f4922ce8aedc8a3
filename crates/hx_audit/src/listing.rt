//! The uses of a member's tokens, as they are found in a run, and the chains that they make.
ghost use Rattle.std.specs.Prelude.{◌≡◌, [], ◌∷◌, ◌++◌, None, OnOk, is_some, unwrap_or};
ghost use Rattle.std.specs.Map.{lookup};
ghost use Rattle.hx_units.specs.Names.{is_token};
ghost use Rattle.hx_audit.specs.Listing.{use_of, grouped};
ghost use Rattle.hx_audit.specs.Finding.{named_by, named, with_use};

use crate::chain::ChainTokens;
use hx_market::Event;
use hx_ouch::{Inbound, decode_in};
use hx_units::{MemberNo, NoMemory, Token};
use indexmap::IndexMap;
use std::alloc::Global;

/// The token that a message would use, and the token whose chain it would join: at an Enter its own.
#[derive(Clone, Copy)]
pub(crate) struct Naming {
    pub token: Token,
    pub existing: Token,
}

// What a message names.
fn message_names(message: &Inbound) -> Option<Naming>
    ensures { result ≡ named_by (Some message.now) }
{
    match message {
        Inbound::Enter(enter) => Some(Naming {
            token: enter.token,
            existing: enter.token,
        }),
        Inbound::Replace(replace) => Some(Naming {
            token: replace.replacement_token,
            existing: replace.existing_token,
        }),
        Inbound::Cancel(_) => None,
    }
}

/// What the event names, if it is a message of the member.
pub(crate) fn event_names(event: &Event, member: MemberNo) -> Option<Naming>
    ensures { result ≡ named member event.now }
{
    let Event::Message {
        member: sender,
        bytes,
        ..
    } = event
    else {
        return None;
    };
    if *sender != member.get() {
        return None;
    }
    message_names(&decode_in(bytes.as_slice())?)
}

// Puts a token to the others of its chain, or begins a chain with it.
fn put(
    alloc: Global,
    chains: &mut IndexMap<Token, ChainTokens>,
    token: Token,
    entered: Token,
) -> Result<(), NoMemory>
    ensures { OnOk result (chains.new.entries ≡ with_use chains.old.entries entered token) }
{
    if let Some(tokens) = chains.get_mut(&entered) {
        tokens.push(token)?;
        return Ok(());
    }
    chains.insert(entered, ChainTokens::of(alloc, token)?)?;
    Ok(())
}

/// The uses that were found, and the chains that they make.
#[derive(Drop)]
pub(crate) struct Listing {
    // Each used token with the entered token of its chain, in order of use.
    pub(crate) uses: IndexMap<Token, Token>,
    // Each chain's entered token with the chain's tokens, by first use.
    pub(crate) chains: IndexMap<Token, ChainTokens>,
    alloc: Global,
}

impl Listing {
    /// No uses.
    pub(crate) fn new(alloc: Global) -> Listing
        ensures uses { result.uses.entries ≡ [] }
        ensures chains { result.chains.entries ≡ [] }
    {
        Listing {
            uses: IndexMap::new(alloc),
            chains: IndexMap::new(alloc),
            alloc,
        }
    }

    /// Whether a token is listed.
    pub(crate) fn has(&self, token: &Token) -> bool
        ensures { result ≡ is_some (lookup (is_token token.now) self.now.uses.entries) }
    {
        self.uses.contains_key(token)
    }

    /// The entered token of a listed token's chain; of another token itself.
    pub(crate) fn entered(&self, token: &Token) -> Token
        ensures { result ≡ unwrap_or (lookup (is_token token.now) self.now.uses.entries) token.now }
    {
        match self.uses.get(token) {
            Some(entered) => *entered,
            None => *token,
        }
    }

    /// One more use.
    pub(crate) fn add(&mut self, token: Token, entered: Token) -> Result<(), NoMemory>
        requires unlisted { lookup (is_token token) self.old.uses.entries ≡ None }
        requires grouped { self.old.chains.entries ≡ grouped self.old.uses.entries }
        ensures uses { OnOk result
            (self.new.uses.entries ≡ self.old.uses.entries ++ use_of token entered ∷ []) }
        ensures grouped { OnOk result (self.new.chains.entries ≡ grouped self.new.uses.entries) }
    {
        self.uses.insert(token, entered)?;
        put(self.alloc, &mut self.chains, token, entered)
    }

    /// The chains, given out.
    pub(crate) fn into_chains(self) -> IndexMap<Token, ChainTokens>
        ensures { result.entries ≡ self.chains.entries }
    {
        let Listing { chains, .. } = self;
        chains
    }
}
