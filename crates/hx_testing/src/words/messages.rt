//! Messages of members in words.

use super::word::Words;
use hx_ouch::{Cancel, Enter, Inbound, Replace};
use hx_units::{Firm, Symbol, Token};
use std::test::Fail;

/// The message that these words begin with, and none if they begin with another word.
///
/// - `enter TOKEN SIDE SHARES STOCK PRICE LIFE DISPLAY`, and then if they are not the usual ones `minimum SHARES`,
///   `firm NAME`, `cross LETTER`
/// - `replace OLD NEW SHARES PRICE LIFE DISPLAY`, and then `minimum SHARES`
/// - `cancel TOKEN SHARES`
pub fn message(words: &mut Words) -> Result<Option<Inbound>, Fail> {
    let mut rest = *words;
    let message = match rest.next() {
        "enter" => Inbound::Enter(enter(&mut rest)?),
        "replace" => Inbound::Replace(replace(&mut rest)?),
        "cancel" => Inbound::Cancel(cancel(&mut rest)?),
        _ => return Ok(None),
    };
    *words = rest;
    Ok(Some(message))
}

fn enter(words: &mut Words) -> Result<Enter, Fail> {
    let mut enter = Enter {
        token: Token(words.name()),
        side: words.side()?,
        shares: words.shares()?,
        stock: Symbol(words.name()),
        price: words.price()?,
        time_in_force: words.life()?,
        firm: Firm(*b"    "),
        display: words.display()?,
        capacity: b'O',
        intermarket_sweep: b'N',
        minimum_quantity: 0,
        cross_type: b'N',
        customer_type: b'R',
    };
    for _ in 0..3 {
        match words.next() {
            "minimum" => enter.minimum_quantity = words.shares()?,
            "firm" => enter.firm = Firm(words.name()),
            "cross" => enter.cross_type = words.letter()?,
            _ => break,
        }
    }
    Ok(enter)
}

fn replace(words: &mut Words) -> Result<Replace, Fail> {
    let mut replace = Replace {
        existing_token: Token(words.name()),
        replacement_token: Token(words.name()),
        shares: words.shares()?,
        price: words.price()?,
        time_in_force: words.life()?,
        display: words.display()?,
        intermarket_sweep: b'N',
        minimum_quantity: 0,
    };
    if words.next() == "minimum" {
        replace.minimum_quantity = words.shares()?;
    }
    Ok(replace)
}

fn cancel(words: &mut Words) -> Result<Cancel, Fail> {
    Ok(Cancel {
        token: Token(words.name()),
        shares: words.shares()?,
    })
}
