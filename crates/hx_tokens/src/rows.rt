//! The rows of the used tokens, in order of use.
ghost use Rattle.std.specs.Prelude.{◌≡◌, ◌+◌, ◌<◌, ◌≤◌, ◌^◌, ◌++◌, [], ◌∷◌, length, Some, None, false, IsSome, IfSome, OnOk, OnErr, slice_get};
ghost use Rattle.std.specs.Option.{option_map, option_copied};
ghost use Rattle.indexmap.specs.IndexMap.{spare};
ghost use Rattle.hx_tokens.specs.declared.name.Name.{Name};
ghost use Rattle.hx_tokens.specs.Chains.{is_used, entered_at, IsChainAt};
ghost use Rattle.hx_tokens.specs.Rows.{Row, is_at, AreDistinct, tokens_of, row_index, row_state, noted_rows, settled_rows};

use crate::name::{ChainFacts, Name, TokenState};
use crate::packed::PackedName;
use crate::seed::Seed;
use crate::series::AllSeries;
use hx_units::{Known, NoMemory, Token, indices_ahead};
use indexmap::IndexMap;
use std::alloc::Global;
use std::marker::Model;

/// A used token: the entered token of its chain and that token's index, the key of its live order, and at an entered
/// token what the chain has done.
#[derive(Drop)]
pub(crate) struct UsedToken {
    // Known to contracts alone: the row at the index `chain` has it as its name.
    pub entered: Known<Token>,
    pub chain: u64,
    // The key, where `has_key`: an `Option` would take eight bytes more.
    pub key: usize,
    // What the chain has done, in the eight bytes that it shares with `has_key`.
    pub executed: u32,
    pub displayed: bool,
    pub traded: bool,
    pub has_key: bool,
}

impl UsedToken {
    ghost use Rattle.hx_tokens.specs.Rows.{fresh, key_of, row_facts, with_key, with_note};

    /// A token that is just used, in the chain of the entered token at an index.
    pub(crate) fn fresh(entered: Token, chain: u64) -> UsedToken
        ensures { result ≡ fresh entered chain }
    {
        UsedToken {
            entered: Known::of(&entered),
            chain,
            key: 0,
            executed: 0,
            displayed: false,
            traded: false,
            has_key: false,
        }
    }

    /// The key of its live order.
    pub(crate) fn key(&self) -> Option<usize>
        ensures { result ≡ key_of self.now }
    {
        if self.has_key { Some(self.key) } else { None }
    }

    /// Sets the key of its live order.
    pub(crate) fn settle(&mut self, key: Option<usize>)
        ensures { self.new ≡ with_key key self.old }
    {
        self.key = key.unwrap_or(0);
        self.has_key = key.is_some();
    }

    /// Adds to what its chain has done, if it begins one.
    pub(crate) fn note(&mut self, shares: u32, displayed: bool)
        requires { self.old.executed + shares < 2 ^ 32 }
        ensures { self.new ≡ with_note shares displayed self.old }
    {
        self.executed += shares;
        self.displayed = self.displayed || displayed;
        self.traded = self.traded || shares > 0;
    }

    /// What its chain has done, if it begins one.
    pub(crate) fn facts(&self) -> ChainFacts
        ensures { result ≡ row_facts self.now }
    {
        ChainFacts {
            executed: self.executed,
            displayed: self.displayed,
            traded: self.traded,
        }
    }
}

/// The used tokens: one map, whose order is the order of use, and the name for which a slot is reserved. A token is
/// found by a hint first, the cell of its name in the series: if the entry to which that leads has another name, or
/// there is no hint, the map is asked.
#[derive(Drop)]
pub(crate) struct Rows {
    tokens: IndexMap<PackedName, UsedToken, Seed>,
    series: AllSeries,
    reserved: Option<PackedName>,
    alloc: Global,
}

impl Model for Rows {
    ghost use Rattle.hx_tokens.specs.Rows.{RowList};
    ghost use Rattle.std.specs.Prelude.{◌<◌, IfSome};
    ghost use Rattle.indexmap.specs.IndexMap.{spare};

    ghost Value = { RowList };

    ghost view = { λ r. record { rows = r.tokens.entries; reserved = r.reserved } };

    ghost invariant = { λ r. IfSome r.reserved (λ _. 0 < spare r.tokens) };
}

// Whether the token at an index has the name.
#[inline(always)]
fn is_at(tokens: &IndexMap<PackedName, UsedToken, Seed>, index: usize, name: PackedName) -> bool
    ensures { result ≡ is_at tokens.now.entries name index }
{
    match tokens.get_index(index) {
        Some((other, _)) => name == *other,
        None => false,
    }
}

// The index of a name, by its hash.
#[inline(never)]
fn search(tokens: &IndexMap<PackedName, UsedToken, Seed>, name: PackedName) -> Option<usize>
    ensures { result ≡ row_index name tokens.now.entries }
{
    tokens.get_index_of(&name)
}

// Makes room for one more token.
#[inline(always)]
fn make_room(tokens: &mut IndexMap<PackedName, UsedToken, Seed>) -> Result<(), NoMemory>
    ensures entries { tokens.new.entries ≡ tokens.old.entries }
    ensures room { spare tokens.old ≤ spare tokens.new }
    ensures ok { OnOk result (0 < spare tokens.new) }
{
    if tokens.capacity() == tokens.len() {
        return grow_ahead(tokens);
    }
    Ok(())
}

// Grows a map that is full. A long one grows far ahead, if there is that much memory.
#[inline(never)]
fn grow_ahead(tokens: &mut IndexMap<PackedName, UsedToken, Seed>) -> Result<(), NoMemory>
    ensures entries { tokens.new.entries ≡ tokens.old.entries }
    ensures room { spare tokens.old ≤ spare tokens.new }
    ensures ok { OnOk result (0 < spare tokens.new) }
{
    let _refused = tokens.reserve(indices_ahead(tokens.len()));
    tokens.reserve(1)?;
    Ok(())
}

// Adds a token, for which there is room, and whose name is not there.
#[inline(always)]
fn add(tokens: &mut IndexMap<PackedName, UsedToken, Seed>, name: PackedName, used: UsedToken)
    requires room { 0 < spare tokens.old }
    requires unused { is_used (tokens_of tokens.old.entries) name.member name.token ≡ false }
    ensures { tokens.new.entries ≡ tokens.old.entries ++ (name, used) ∷ [] }
{
    tokens.insert(name, used).unwrap();
}

// Sets the key at an index.
#[inline(always)]
fn settle_at(tokens: &mut IndexMap<PackedName, UsedToken, Seed>, index: usize, key: Option<usize>)
    ensures entries { tokens.new.entries ≡ settled_rows index key tokens.old.entries }
    ensures room { spare tokens.new ≡ spare tokens.old }
{
    if let Some(used) = tokens.get_index_mut(index) {
        used.settle(key);
    }
}

// Adds to what the chain at an index has done.
#[inline(always)]
fn note_at(
    tokens: &mut IndexMap<PackedName, UsedToken, Seed>,
    chain: usize,
    shares: u32,
    displayed: bool,
)
    requires { (row : Row) × (slice_get tokens.old.entries chain ≡ Some row)
        × (row.1.executed + shares < 2 ^ 32) }
    ensures entries { tokens.new.entries ≡ noted_rows chain shares displayed tokens.old.entries }
    ensures room { spare tokens.new ≡ spare tokens.old }
{
    if let Some(used) = tokens.get_index_mut(chain) {
        used.note(shares, displayed);
    }
}

impl Rows {
    /// No rows, and no reserved slot, with this seed. It takes no memory.
    pub(crate) fn new(alloc: Global, seed: Seed) -> Self
        ensures rows { result.rows ≡ [] }
        ensures reserved { result.reserved ≡ None }
    {
        Rows {
            tokens: IndexMap::with_hasher(alloc, seed),
            series: AllSeries::new(alloc),
            reserved: None,
            alloc,
        }
    }

    /// How many rows there are.
    #[inline(always)]
    pub(crate) fn len(&self) -> u64
        ensures { result ≡ length self.now.rows }
    {
        self.tokens.len() as u64
    }

    /// Makes room for one more row, of this name.
    #[inline(always)]
    pub(crate) fn reserve(&mut self, name: PackedName) -> Result<(), NoMemory>
        ensures rows { self.new.rows ≡ self.old.rows }
        ensures ok { OnOk result (self.new.reserved ≡ Some name) }
        ensures err { OnErr result (self.new.reserved ≡ self.old.reserved) }
    {
        self.series.make_cell(self.alloc, name)?;
        make_room(&mut self.tokens)?;
        self.reserved = Some(name);
        Ok(())
    }

    /// Adds the row for which a slot is reserved. No row has its name.
    #[inline(always)]
    pub(crate) fn push(&mut self, used: UsedToken)
        requires reserved { IsSome self.old.reserved }
        requires unused { IfSome self.old.reserved (λ name.
            is_used (tokens_of self.old.rows) name.member name.token ≡ false) }
        ensures rows { (name : Name) → self.old.reserved ≡ Some name
            → self.new.rows ≡ self.old.rows ++ (name, used) ∷ [] }
        ensures reserved { self.new.reserved ≡ None }
    {
        if let Some(name) = self.reserved.take() {
            self.series.note(name, self.tokens.len());
            add(&mut self.tokens, name, used);
        }
    }

    // The index to which a name's hint leads, if the row there has the name.
    #[inline(always)]
    fn hinted(&self, name: PackedName) -> Option<usize>
        requires { AreDistinct (tokens_of self.now.rows) }
        ensures { IfSome result (λ index. row_index name self.now.rows ≡ Some index) }
    {
        let at = (self.series.content(name) as usize).wrapping_sub(1);
        if is_at(&self.tokens, at, name) {
            return Some(at);
        }
        None
    }

    /// The index of a name. Its hint is tried first: if that leads to the name's row, nothing is hashed.
    #[inline(always)]
    pub(crate) fn index(&self, name: PackedName) -> Option<usize>
        requires { AreDistinct (tokens_of self.now.rows) }
        ensures { result ≡ row_index name self.now.rows }
    {
        match self.hinted(name) {
            Some(index) => Some(index),
            None => search(&self.tokens, name),
        }
    }

    /// The index of a name. The last row is tried first.
    #[inline(always)]
    pub(crate) fn last_or_index(&self, name: PackedName) -> Option<usize>
        requires { AreDistinct (tokens_of self.now.rows) }
        ensures { result ≡ row_index name self.now.rows }
    {
        let last = self.tokens.len().saturating_sub(1);
        if is_at(&self.tokens, last, name) {
            return Some(last);
        }
        self.index(name)
    }

    /// The row at an index, without its name.
    pub(crate) fn at(&self, index: usize) -> Option<&UsedToken>
        ensures { option_copied result
            ≡ option_map (λ (row : Row). row.1) (slice_get self.now.rows index) }
    {
        let (_, used) = self.tokens.get_index(index)?;
        Some(used)
    }

    /// The name of the row at an index.
    pub(crate) fn name_at(&self, index: usize) -> Option<Name>
        ensures { result ≡ option_map (λ (row : Row). row.0) (slice_get self.now.rows index) }
    {
        let (name, _) = self.tokens.get_index(index)?;
        Some(name.name())
    }

    /// The entered token of the chain that begins at an index: the token of that row's name.
    pub(crate) fn entered(&self, index: usize, token: Token) -> Token
        requires { IsChainAt (tokens_of self.now.rows) index }
        ensures { result ≡ entered_at (tokens_of self.now.rows) index token }
    {
        match self.name_at(index) {
            Some(name) => name.token,
            None => token,
        }
    }

    /// The state of a name.
    #[inline(always)]
    pub(crate) fn state(&self, name: PackedName) -> Option<TokenState>
        requires { AreDistinct (tokens_of self.now.rows) }
        ensures { result ≡ row_state name self.now.rows }
    {
        let used = self.at(self.index(name)?)?;
        let entered = self.at(used.chain as usize)?;
        Some(TokenState {
            chain: used.chain,
            facts: entered.facts(),
            key: used.key(),
        })
    }

    /// Sets the key of the live order of the token at an index.
    pub(crate) fn settle(&mut self, index: usize, key: Option<usize>)
        ensures rows { self.new.rows ≡ settled_rows index key self.old.rows }
        ensures reserved { self.new.reserved ≡ self.old.reserved }
    {
        settle_at(&mut self.tokens, index, key);
    }

    /// Adds to what the chain at an index has done.
    pub(crate) fn note(&mut self, chain: usize, shares: u32, displayed: bool)
        requires { (row : Row) × (slice_get self.old.rows chain ≡ Some row)
            × (row.1.executed + shares < 2 ^ 32) }
        ensures rows { self.new.rows ≡ noted_rows chain shares displayed self.old.rows }
        ensures reserved { self.new.reserved ≡ self.old.reserved }
    {
        note_at(&mut self.tokens, chain, shares, displayed);
    }

    /// Prefetches the cells to which hints lead, and reads nothing else in between, so that their cache misses overlap.
    /// The result is unspecified.
    #[inline(always)]
    pub(crate) fn sum_of_cells(&self, hints: &[u64]) -> u64 {
        let mut sum: u64 = 0;
        for hint in hints {
            sum = sum.wrapping_add(u64::from(self.series.guess(*hint)));
        }
        sum
    }

    // For each hint the content of the cell to which it leads: one more than an index, or 0.
    #[inline(always)]
    fn prefetched_indices(&self, hints: &[u64]) -> [usize; 16] {
        let mut indices = [0; 16];
        for (index, hint) in indices.iter_mut().zip(hints) {
            *index = self.series.guess(*hint) as usize;
        }
        indices
    }

    /// For each of up to sixteen hints the key of the row to which it probably leads, and that of the first row if
    /// there is none. The keys are unspecified: the call prefetches cells and rows before their turn.
    #[inline(always)]
    pub(crate) fn prefetched_keys(&self, hints: &[u64]) -> [usize; 16] {
        let indices = self.prefetched_indices(hints);
        let mut keys = [usize::MAX; 16];
        for (key, index) in keys.iter_mut().zip(&indices) {
            *key = self.key_before(*index);
        }
        keys
    }

    // The key at the row before an index, or at the first row: it is chosen without a branch.
    #[inline(always)]
    fn key_before(&self, index: usize) -> usize {
        match self.tokens.get_index(index.saturating_sub(1)) {
            Some((_, used)) => used.key,
            None => usize::MAX,
        }
    }
}
