//! The lines of a setup's text.
ghost use Rattle.std.specs.Prelude.{◌≡◌, ◌≢◌, ℕ, List, Bool, IfSome, IfNone};
ghost use Rattle.hx_setup.specs.declared.stock.Stock.{Stock as StockName};
ghost use Rattle.hx_setup.specs.declared.stock.Member.{Member as MemberName};
ghost use Rattle.hx_setup.specs.SetupText.{session_line, start_line, stock_line, member_line, HasStockLine, HasMemberLine};
ghost use Rattle.hx_setup.specs.Reading.{IsSession, AreFields, IsNext};

use crate::fields::{firm, later, limit, login_name, member_number, name, session, tail};
use crate::stock::{Member, Stock};
use hx_units::{Firm, Symbol, split_once};

/// The fields of a member's line, as they are spelled.
#[derive(Clone, Copy)]
struct MemberFields<'a> {
    number: &'a [u8],
    firm: &'a [u8],
    user: &'a [u8],
    password: &'a [u8],
    limit: &'a [u8],
}

/// The session that the line at the front of a text gives, and the text after that line.
pub(crate) fn next_session(text: &[u8]) -> Option<([u8; 10], &[u8])>
    ensures some { IfSome result (λ p. IsNext session_line IsSession text.now p.0 p.1.now) }
    ensures none { IfNone result
        ((s rest : List ℕ) → IsNext session_line IsSession text.now s rest → ⊥) }
{
    let (line, rest) = split_once(text, b'\n')?;
    Some((read_session(line)?, rest))
}

/// How the day begins, by the line at the front of a text, and the text after that line.
pub(crate) fn next_start(text: &[u8]) -> Option<(bool, &[u8])>
    ensures some { IfSome result (λ p. IsNext start_line (λ _. Unit {0}) text.now p.0 p.1.now) }
    ensures none { IfNone result ((is_open : Bool) (rest : List ℕ)
        → IsNext start_line (λ _. Unit {0}) text.now is_open rest → ⊥) }
{
    let (line, rest) = split_once(text, b'\n')?;
    Some((read_start(line)?, rest))
}

/// The stock that the line at the front of a text gives, and the text after that line.
pub(crate) fn next_stock(text: &[u8]) -> Option<(Stock, &[u8])>
    ensures some { IfSome result (λ p. IsNext stock_line HasStockLine text.now p.0 p.1.now) }
    ensures none { IfNone result ((s : StockName) (rest : List ℕ)
        → IsNext stock_line HasStockLine text.now s rest → ⊥) }
{
    let (line, rest) = split_once(text, b'\n')?;
    Some((read_stock(line)?, rest))
}

/// The member that the line at the front of a text gives, and the text after that line.
pub(crate) fn next_member(text: &[u8]) -> Option<(Member, &[u8])>
    ensures some { IfSome result (λ p. IsNext member_line HasMemberLine text.now p.0 p.1.now) }
    ensures none { IfNone result ((m : MemberName) (rest : List ℕ)
        → IsNext member_line HasMemberLine text.now m rest → ⊥) }
{
    let (line, rest) = split_once(text, b'\n')?;
    Some((read_member(line)?, rest))
}

// The session of a line.
#[tactic(auto, unfolding(crate::specs::SetupText::session_line))]
fn read_session(line: &[u8]) -> Option<[u8; 10]>
    ensures some { IfSome result (λ s. IsSession s × (line.now ≡ session_line s)) }
    ensures none { IfNone result ((s : List ℕ) → IsSession s → line.now ≢ session_line s) }
{
    session(later(line, b"session ")?)
}

// How the day begins, by a line.
#[tactic(auto, unfolding(crate::specs::SetupText::start_line))]
fn read_start(line: &[u8]) -> Option<bool>
    ensures some { IfSome result (λ is_open. line.now ≡ start_line is_open) }
    ensures none { IfNone result ((is_open : Bool) → line.now ≢ start_line is_open) }
{
    if line == b"start open".as_slice() {
        Some(true)
    } else if line == b"start closed".as_slice() {
        Some(false)
    } else {
        None
    }
}

// The stock of a line.
fn read_stock(line: &[u8]) -> Option<Stock>
    ensures some { IfSome result (λ s. HasStockLine s × (line.now ≡ stock_line s)) }
    ensures none { IfNone result ((s : StockName) → HasStockLine s → line.now ≢ stock_line s) }
{
    let (symbol, tail_text) = split_once(later(line, b"stock ")?, b' ')?;
    let symbol = Symbol(name(symbol)?);
    let tail = tail(tail_text)?;
    Some(Stock { symbol, tail })
}

// The fields of a member's line.
fn split_member(line: &[u8]) -> Option<MemberFields<'_>>
    ensures some { IfSome result
        (λ f. AreFields line.now f.number.now f.firm.now f.user.now f.password.now f.limit.now) }
    ensures none { IfNone result ((n f u p l : List ℕ) → AreFields line.now n f u p l → ⊥) }
{
    let (number, rest) = split_once(later(line, b"member ")?, b' ')?;
    let (firm, rest) = split_once(rest, b' ')?;
    let (user, rest) = split_once(rest, b' ')?;
    let (password, limit) = split_once(rest, b' ')?;
    Some(MemberFields {
        number,
        firm,
        user,
        password,
        limit,
    })
}

// The member of a line.
fn read_member(line: &[u8]) -> Option<Member>
    ensures some { IfSome result (λ m. HasMemberLine m × (line.now ≡ member_line m)) }
    ensures none { IfNone result ((m : MemberName) → HasMemberLine m → line.now ≢ member_line m) }
{
    let fields = split_member(line)?;
    Some(Member {
        number: member_number(fields.number)?,
        firm: Firm(firm(fields.firm)?),
        user: login_name(fields.user)?,
        password: login_name(fields.password)?,
        limit: limit(fields.limit)?,
    })
}
