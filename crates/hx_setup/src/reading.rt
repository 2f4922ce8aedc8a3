//! The stocks and the members of a setup's text, each of its own line.
ghost use Rattle.std.specs.Prelude.{◌≡◌, IfOk, nat_lt, length, map, true};
ghost use Rattle.std.specs.List.{list_all};
ghost use Rattle.std.specs.Char.{to_ascii_lowercase};
ghost use Rattle.hx_setup.specs.Setups.{numbers_rise};
ghost use Rattle.hx_setup.specs.SetupText.{stock_line, member_line};
ghost use Rattle.hx_setup.specs.Reading.{AreStocks, AreMembers, IsLongest};

use crate::lines::{next_member, next_stock};
use crate::stock::{Member, Stock};
use hx_units::{MemberNo, NoMemory};
use indexmap::IndexSet;
use std::alloc::Global;

/// The most stocks of a setup.
const MOST_STOCKS: usize = 1000;

/// The most members of a setup: there are no more numbers.
const MOST_MEMBERS: usize = 4095;

/// The stocks at the front of a text, as long a list as possible, and the text after their lines. It fails only when
/// out of memory.
pub(crate) fn read_stocks(alloc: Global, text: &[u8]) -> Result<(Vec<Stock>, &[u8]), NoMemory>
    ensures { IfOk result (λ p. IsLongest stock_line AreStocks text.now p.0.items p.1.now) }
{
    let mut stocks = Vec::new(alloc);
    let mut symbols = IndexSet::new(alloc);
    let mut rest = text;
    while stocks.len() < MOST_STOCKS {
        let Some((stock, later)) = next_stock(rest) else {
            return Ok((stocks, rest));
        };
        if !symbols.insert(stock.symbol)? {
            return Ok((stocks, rest));
        }
        stocks.push(stock)?;
        rest = later;
    }
    Ok((stocks, rest))
}

/// The members at the front of a text, as long a list as possible, and the text after their lines. It fails only when
/// out of memory.
pub(crate) fn read_members(alloc: Global, text: &[u8]) -> Result<(Vec<Member>, &[u8]), NoMemory>
    ensures { IfOk result (λ p. IsLongest member_line AreMembers text.now p.0.items p.1.now) }
{
    let mut members = Vec::new(alloc);
    let mut users = IndexSet::new(alloc);
    let mut rest = text;
    while members.len() < MOST_MEMBERS {
        let Some((member, later)) = next_member(rest) else {
            return Ok((members, rest));
        };
        if !is_above(&members, member.number) || !users.insert(in_lower_case(member.user))? {
            return Ok((members, rest));
        }
        members.push(member)?;
        rest = later;
    }
    Ok((members, rest))
}

// Whether the number is above those of all members, which rise.
fn is_above(members: &[Member], number: MemberNo) -> bool
    requires { numbers_rise members.now ≡ true }
    ensures { result ≡ list_all (λ m. nat_lt m.number number) members.now }
{
    match members.last() {
        Some(last) => last.number.get() < number.get(),
        None => true,
    }
}

// A user, in lower case.
fn in_lower_case(user: [u8; 6]) -> [u8; 6]
    ensures { result ≡ map to_ascii_lowercase user }
{
    let mut lower = user;
    lower.make_ascii_lowercase();
    lower
}
