//! The setup of a day.
ghost use Rattle.std.specs.Prelude.{◌≡◌, ◌≤◌, ◌<◌, ◌+◌, length, map, IfOk, IfErr, OnOk, true};
ghost use Rattle.std.specs.Option.{option_map};
ghost use Rattle.hx_units.specs.Ranges.{IsMember};
ghost use Rattle.hx_setup.specs.Setups.{setup_with, is_login, names_differ, numbers_rise, locates_of, indices_of, stock_named, member_with};

use crate::fault::SetupError;
use crate::guesses::Guesses;
use crate::lines::{next_session, next_start};
use crate::reading::{read_members, read_stocks};
use crate::stock::{Member, Stock};
use crate::symbol::is_same_symbol;
use hx_units::{Firm, MemberNo, NoMemory, Symbol};
use indexmap::IndexMap;
use std::alloc::Global;
use std::marker::Model;

/// The setup of a day: its session, its stocks, its members, and how it begins.
pub struct Setup {
    session: [u8; 10],
    start_open: bool,
    stocks: Vec<Stock>,
    members: Vec<Member>,
    locates: IndexMap<Symbol, u16>,
    indices: IndexMap<MemberNo, u16>,
    guesses: Guesses,
}

// By hand, so that when a value is dropped its owner's proof sees one call.
impl Drop for Setup {
    fn drop(self) {
        let Setup {
            session: _,
            start_open: _,
            stocks: _,
            members: _,
            locates: _,
            indices: _,
            guesses: _,
        } = self;
    }
}

impl Model for Setup {
    ghost use Rattle.std.specs.Prelude.{◌≡◌};
    ghost use Rattle.hx_setup.specs.Setups.{Setup, setup_with, IsSetup, locates_of, indices_of};

    ghost Value = { Setup };

    ghost view = { λ s. setup_with s.session s.start_open s.stocks.items s.members.items };

    ghost invariant = { λ s.
        IsSetup (setup_with s.session s.start_open s.stocks.items s.members.items)
        × (s.locates.entries ≡ locates_of s.stocks.items)
        × (s.indices.entries ≡ indices_of s.members.items) };
}

/// Whether a user, or a password, is the stored one: without regard to case and to spaces on the right.
fn is_same_login(given: &[u8], retained: &[u8]) -> bool
    requires { length given.now ≡ length retained.now }
    ensures { result ≡ is_login given.now retained.now }
{
    given.eq_ignore_ascii_case(retained)
}

/// The index of the stocks by name.
fn index_stocks(alloc: Global, stocks: &[Stock]) -> Result<IndexMap<Symbol, u16>, NoMemory>
    requires few { length stocks.now ≤ 1000 }
    requires names { names_differ stocks.now ≡ true }
    ensures { IfOk result (λ locates. locates.entries ≡ locates_of stocks.now) }
{
    let mut locates = IndexMap::new(alloc);
    let mut locate = 0;
    for stock in stocks {
        locate += 1;
        locates.insert(stock.symbol, locate)?;
    }
    Ok(locates)
}

/// The index of the members by number.
fn index_members(alloc: Global, members: &[Member]) -> Result<IndexMap<MemberNo, u16>, NoMemory>
    requires few { length members.now ≤ 4095 }
    requires numbers { numbers_rise members.now ≡ true }
    ensures { IfOk result (λ indices. indices.entries ≡ indices_of members.now) }
{
    let mut indices = IndexMap::new(alloc);
    let mut index = 0;
    for member in members {
        indices.insert(member.number, index)?;
        index += 1;
    }
    Ok(indices)
}

impl Setup {
    ghost use Rattle.hx_setup.specs.SetupText.{HasText, setup_text, IsFault};
    ghost use Rattle.hx_setup.specs.Setups.{IsSetup, standard, locate_of, stock_at, member_of, login_of};

    /// The setup of these fields.
    fn of(
        alloc: Global,
        session: [u8; 10],
        start_open: bool,
        stocks: Vec<Stock>,
        members: Vec<Member>,
    ) -> Result<Self, NoMemory>
        requires { IsSetup (setup_with session start_open stocks.items members.items) }
        ensures { IfOk result (λ setup.
            setup ≡ setup_with session start_open stocks.items members.items) }
    {
        let locates = index_stocks(alloc, &stocks)?;
        let indices = index_members(alloc, &members)?;
        let guesses = Guesses::of(alloc, &stocks)?;
        Ok(Setup {
            session,
            start_open,
            stocks,
            members,
            locates,
            indices,
            guesses,
        })
    }

    /// The setup that a text spells. Its lines are `session` with 10 letters or digits; `start` with `open` or `closed`;
    /// 1 to 1,000 of `stock` with a name of 1 to 8 visible characters, no name twice, and a tail of 20 bytes in
    /// lower-case hexadecimal; and 1 to 4,095 of `member` with a number, from 1 to 4,095 and rising, a firm of 4 capital
    /// letters or digits, a user of 1 to 6 and a password of 1 to 10 letters or digits, no user twice without regard to
    /// case, and a limit from 1 to 4,294,967,295. One space stands between fields, numbers are decimal without leading
    /// zeros, and each line ends with a line feed.
    ///
    /// `Bad` names the first line that does not fit, or that is missing; `NoMemory` is answered for want of memory alone.
    pub fn read(alloc: Global, text: &[u8]) -> Result<Self, SetupError>
        ensures ok { IfOk result (λ setup. HasText setup × (text.now ≡ setup_text setup)) }
        ensures err { IfErr result (λ e. IsFault text.now e) }
    {
        let Some(first) = next_session(text) else {
            return Err(SetupError::Bad { line: 1 });
        };
        let session = first.0;
        let Some((start_open, rest)) = next_start(first.1) else {
            return Err(SetupError::Bad { line: 2 });
        };
        let (stocks, rest) = read_stocks(alloc, rest)?;
        if stocks.is_empty() {
            return Err(SetupError::Bad { line: 3 });
        }
        let (members, rest) = read_members(alloc, rest)?;
        if members.is_empty() || !rest.is_empty() {
            let line = 3 + stocks.len() as u64 + members.len() as u64;
            return Err(SetupError::Bad { line });
        }
        Ok(Setup::of(alloc, session, start_open, stocks, members)?)
    }

    /// The standard setup: two stocks, three members, and a day that begins open. It fails only for want of memory.
    pub fn standard(alloc: Global) -> Result<Self, NoMemory>
        ensures { IfOk result (λ setup. setup ≡ standard) }
    {
        let stocks = vec![in alloc; stock(*b"ABCD    "), stock(*b"WXYZ    ")]?;
        let members = vec![in alloc;
            member(1, *b"FMA1", *b"ALPHA ", *b"PWALPHA   "),
            member(2, *b"FMB2", *b"BRAVO ", *b"PWBRAVO   "),
            member(3, *b"FMC3", *b"CHARLI", *b"PWCHARLI  "),
        ]?;
        Setup::of(alloc, *b"HX00000001", true, stocks, members)
    }

    /// An equal setup. It fails only for want of memory.
    pub fn copy(&self, alloc: Global) -> Result<Self, NoMemory>
        ensures equal { IfOk result (λ setup. setup ≡ self.now) }
        ensures is_setup { OnOk result (IsSetup self.now) }
    {
        let stocks = self.stocks.to_vec(alloc)?;
        let members = self.members.to_vec(alloc)?;
        Setup::of(alloc, self.session, self.start_open, stocks, members)
    }

    /// The session: 10 letters or digits (MoldUDP64 and SoupBinTCP: Session).
    pub fn session(&self) -> &[u8; 10]
        ensures { result.now ≡ self.now.session }
    {
        &self.session
    }

    /// Whether the day begins open.
    pub fn start_open(&self) -> bool
        ensures { result ≡ self.now.start_open }
    {
        self.start_open
    }

    /// The stocks, in order of their locates, which count from 1.
    pub fn stocks(&self) -> &[Stock]
        ensures stocks { result.now ≡ self.now.stocks }
        ensures few { length result.now ≤ 1000 }
    {
        &self.stocks
    }

    /// The members, by rising number.
    pub fn members(&self) -> &[Member]
        ensures { result.now ≡ self.now.members }
    {
        &self.members
    }

    /// The stock of a locate (ITCH 5.0: Stock Locate), if there is one.
    #[inline(always)]
    pub fn stock(&self, locate: u16) -> Option<&Stock>
        ensures { option_map (λ s. s.now) result ≡ stock_at self.now locate }
    {
        if locate == 0 {
            return None;
        }
        self.stocks.get(locate as usize - 1)
    }

    /// The locate of a stock, if it is one of the day's. Mostly a guess gives it, whose stock has the name: then
    /// nothing is looked up.
    #[inline(always)]
    pub fn locate(&self, symbol: Symbol) -> Option<u16>
        ensures { result ≡ locate_of self.now symbol }
    {
        let guess = self.guesses.locate(symbol);
        match self.stock(guess) {
            Some(stock) if is_same_symbol(stock.symbol, symbol) => Some(guess),
            _ => self.locate_by_index(symbol),
        }
    }

    /// The same, by the index.
    #[inline(never)]
    fn locate_by_index(&self, symbol: Symbol) -> Option<u16>
        ensures { result ≡ locate_of self.now symbol }
    {
        self.locates.get(&symbol).copied()
    }

    /// The member of this number, if there is one. If numbers count from 1 without a gap, nothing is hashed.
    #[inline(always)]
    pub fn member(&self, number: MemberNo) -> Option<&Member>
        ensures { option_map (λ m. m.now) result ≡ member_of self.now number }
    {
        match self.members.get(number.get() as usize - 1) {
            Some(member) if member.number == number => Some(member),
            _ => self.member_by_index(number),
        }
    }

    /// The same, by the index.
    fn member_by_index(&self, number: MemberNo) -> Option<&Member>
        ensures { option_map (λ m. m.now) result ≡ member_of self.now number }
    {
        let index = *self.indices.get(&number)?;
        self.members.get(index as usize)
    }

    /// The member that logs in so (SoupBinTCP 3.00, Login Request: Username and Password). Both are compared without
    /// regard to case and to spaces on their right.
    pub fn login(&self, user: &[u8; 6], password: &[u8; 10]) -> Option<MemberNo>
        ensures { result ≡ login_of self.now user.now password.now }
    {
        for member in &self.members {
            if is_same_login(user, &member.user) && is_same_login(password, &member.password) {
                return Some(member.number);
            }
        }
        None
    }
}

/// A stock of the standard setup.
fn stock(symbol: [u8; 8]) -> Stock
    ensures { result ≡ stock_named symbol }
{
    Stock {
        symbol: Symbol(symbol),
        tail: *b"Q \0\0\0dNCZ P  1N\0\0\0\0N",
    }
}

/// A member of the standard setup.
fn member(number: u16, firm: [u8; 4], user: [u8; 6], password: [u8; 10]) -> Member
    requires { IsMember number }
    ensures { result ≡ member_with number firm user password 1000 }
{
    Member {
        number: MemberNo::of(number).unwrap(),
        firm: Firm(firm),
        user,
        password,
        limit: 1000,
    }
}
