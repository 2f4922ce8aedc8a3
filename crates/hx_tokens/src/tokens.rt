//! The used tokens of all members, in order of use, and what their chains have done.
ghost use Rattle.std.specs.Prelude.{◌≡◌, ℕ, ◌+◌, ◌<◌, ◌^◌, ◌++◌, [], ◌∷◌, length, Some, None, IfSome, OnOk, OnErr, slice_set, true, false};
ghost use Rattle.hx_units.specs.declared.names.Token.{Token as TokenName};
ghost use Rattle.hx_tokens.specs.Chains.{is_used, index_of, entered_of, entered_used, entered_chain, replacing_used, entered_at, executed_at, noted_at, IsEnteredAt, IsChainAt};
ghost use Rattle.hx_tokens.specs.Rows.{name_of, is_name};
ghost use Rattle.hx_tokens.specs.Tokens.{state_of, name_at};

use crate::name::{Name, TokenState};
use crate::packed::PackedName;
use crate::rows::{Rows, UsedToken};
use crate::seed::Seed;
use hx_units::{MemberNo, NoMemory, Token};
use std::alloc::Global;
use std::marker::Model;

/// The used tokens of all members, in order of use, and one reserved slot.
///
/// A chain is an entered token with the tokens that replaced it. It is named by its member and its entered token; calls
/// name it by that token's index in the order of use.
pub struct Tokens {
    retained: Rows,
}

// By hand, so that when a value is dropped its owner's proof sees one call.
impl Drop for Tokens {
    fn drop(self) {
        let Tokens { retained: _ } = self;
    }
}

impl Model for Tokens {
    ghost use Rattle.hx_tokens.specs.Rows.{IsSound};
    ghost use Rattle.hx_tokens.specs.Tokens.{TokenList, list_of};

    ghost Value = { TokenList };

    ghost view = { λ t. list_of t.retained };

    ghost invariant = { λ t. IsSound t.retained.rows };
}

impl Tokens {
    /// No token is used, and no slot is reserved; the table has the fixed seed.
    pub fn new(alloc: Global) -> Self
        ensures tokens { result.tokens ≡ [] }
        ensures chains { result.chains ≡ [] }
        ensures keys { result.keys ≡ [] }
        ensures reserved { result.reserved ≡ None }
    {
        Tokens::seeded(alloc, Seed::Fixed)
    }

    /// No token is used, and no slot is reserved; the table has this seed.
    pub fn seeded(alloc: Global, seed: Seed) -> Self
        ensures tokens { result.tokens ≡ [] }
        ensures chains { result.chains ≡ [] }
        ensures keys { result.keys ≡ [] }
        ensures reserved { result.reserved ≡ None }
    {
        Tokens {
            retained: Rows::new(alloc, seed),
        }
    }

    /// The number of used tokens: the index that the next one gets.
    pub fn count(&self) -> u64
        ensures { result ≡ length self.now.tokens }
    {
        self.retained.len()
    }

    /// The state of a token, if the member has used it.
    #[inline(always)]
    pub fn state(&self, member: MemberNo, token: &Token) -> Option<TokenState>
        ensures state { result
            ≡ state_of self.now.tokens self.now.chains self.now.keys member token.now }
        ensures entered { IfSome result (λ state. IsEnteredAt self.now.tokens member
            (entered_of self.now.tokens member token.now) state.chain) }
    {
        self.retained.state(PackedName::of(member, token))
    }

    /// The used token at an index in the order of use.
    pub fn name_at(&self, index: u64) -> Option<Name>
        ensures name { result ≡ name_at self.now.tokens index }
        ensures reserved { IfSome result (λ name.
            index_of self.now.tokens name.member name.token ≡ index) }
    {
        self.retained.name_at(index as usize)
    }

    /// Reserves a slot for this token, which holds until it is used or another slot is reserved. It fails only when out
    /// of memory.
    #[inline(always)]
    pub fn reserve(&mut self, member: MemberNo, token: &Token) -> Result<(), NoMemory>
        ensures tokens { self.new.tokens ≡ self.old.tokens }
        ensures chains { self.new.chains ≡ self.old.chains }
        ensures keys { self.new.keys ≡ self.old.keys }
        ensures ok { OnOk result (self.new.reserved ≡ Some (name_of member token.now)) }
        ensures err { OnErr result (self.new.reserved ≡ self.old.reserved) }
    {
        self.retained.reserve(PackedName::of(member, token))
    }

    /// The token becomes used, as a chain of its own.
    #[inline(always)]
    pub fn consume(&mut self, member: MemberNo, token: &Token)
        requires reserved { self.old.reserved ≡ Some (name_of member token.now) }
        requires unused { is_used self.old.tokens member token.now ≡ false }
        ensures tokens { self.new.tokens ≡ self.old.tokens ++ entered_used member token.now ∷ [] }
        ensures chains { self.new.chains ≡ self.old.chains ++ entered_chain member token.now ∷ [] }
        ensures keys { self.new.keys ≡ self.old.keys ++ None ∷ [] }
        ensures reserved { self.new.reserved ≡ None }
    {
        let chain = self.retained.len();
        self.retained.push(UsedToken::fresh(*token, chain));
    }

    /// The token becomes used, in the chain of the member's entered token at this index.
    pub fn join_chain(&mut self, member: MemberNo, token: &Token, chain: u64)
        requires reserved { self.old.reserved ≡ Some (name_of member token.now) }
        requires unused { is_used self.old.tokens member token.now ≡ false }
        requires there { (entered : TokenName) × IsEnteredAt self.old.tokens member entered chain }
        ensures tokens { self.new.tokens ≡ self.old.tokens
            ++ replacing_used member token.now (entered_at self.old.tokens chain token.now) ∷ [] }
        ensures chains { self.new.chains ≡ self.old.chains }
        ensures keys { self.new.keys ≡ self.old.keys ++ None ∷ [] }
        ensures reserved { self.new.reserved ≡ None }
    {
        let entered = self.retained.entered(chain as usize, *token);
        self.retained.push(UsedToken::fresh(entered, chain));
    }

    /// Sets the key of a used token: that of its order in the book.
    #[inline(always)]
    pub fn settle(&mut self, member: MemberNo, token: &Token, key: Option<usize>)
        requires used { is_used self.old.tokens member token.now ≡ true }
        ensures tokens { self.new.tokens ≡ self.old.tokens }
        ensures chains { self.new.chains ≡ self.old.chains }
        ensures keys { self.new.keys ≡ slice_set self.old.keys
            (index_of self.old.tokens member token.now) key }
        ensures reserved { self.new.reserved ≡ self.old.reserved }
    {
        if let Some(index) = self.retained.last_or_index(PackedName::of(member, token)) {
            self.retained.settle(index, key);
        }
    }

    /// Adds to what the chain of the entered token at this index has done: `shares` shares executed, and displayed or
    /// not. A chain trades by its first executed share.
    #[inline(always)]
    pub fn note(&mut self, chain: u64, shares: u32, displayed: bool)
        requires there { IsChainAt self.old.tokens chain }
        requires fits { executed_at self.old.tokens self.old.chains chain + shares < 2 ^ 32 }
        ensures tokens { self.new.tokens ≡ self.old.tokens }
        ensures chains { self.new.chains
            ≡ noted_at self.old.tokens chain shares displayed self.old.chains }
        ensures keys { self.new.keys ≡ self.old.keys }
        ensures reserved { self.new.reserved ≡ self.old.reserved }
    {
        self.retained.note(chain as usize, shares, displayed);
    }

    /// Reads the cells to which these hints lead, as `prefetch_hint` makes them. The result is unspecified: called with the
    /// tokens of coming orders, it prefetches that memory, for all of them at once.
    #[inline(always)]
    pub fn prefetch(&self, hints: &[u64]) -> u64 {
        self.retained.sum_of_cells(hints)
    }

    /// For each of up to sixteen hints, as `prefetch_hint` makes them, the key of the used token that probably has it, and
    /// some key if there is none, or `usize::MAX` if no token is used. The keys are unspecified: called with the tokens
    /// of coming orders, it prefetches their rows.
    #[inline(always)]
    pub fn prefetched_keys(&self, hints: &[u64]) -> [usize; 16] {
        self.retained.prefetched_keys(hints)
    }
}

/// Whether two members' tokens are one name: the same token of the same member.
#[inline(always)]
pub fn is_same_name(member: MemberNo, token: &Token, other: MemberNo, other_token: &Token) -> bool
    ensures { result
        ≡ is_name (name_of member token.now) (name_of other other_token.now) }
{
    PackedName::of(member, token) == PackedName::of(other, other_token)
}

/// The hint at which a member's token is probably found, for `prefetch` and `prefetched_keys`: the member's number in the
/// upper half, and in the lower the number that the token's last letters spell. The result is unspecified.
#[inline(always)]
pub fn prefetch_hint(member: MemberNo, token: &Token) -> u64 {
    let number = PackedName::of(member, token).number();
    u64::from(member.get()) * 0x1_0000_0000 + number % 0x1_0000_0000
}
