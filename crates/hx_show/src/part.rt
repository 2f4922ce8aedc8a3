//! The parts of a message in words: its fields, each with its label or its unit.
ghost use Rattle.std.specs.Prelude.{◌≡◌, ◌++◌, OnOk, codes};
ghost use Rattle.hx_show.specs.Units.{name_words, shares_words};
ghost use Rattle.hx_show.specs.Parts.{labelled, letter_words, display_words, time_in_force_words, part_words, message_words};

use crate::columns::{NAME_WIDTH, put_column};
use crate::label::Label;
use crate::meaning::meaning;
use crate::units::{put_dollars, put_name, put_number, put_shares};
use hx_rules::is_shown;
use hx_units::{Firm, Symbol, Token};
use std::alloc::AllocError;

/// A field of a message, as it is shown in words.
#[derive(Clone, Copy)]
pub enum Part {
    /// A member's name of an order.
    Token(Label, Token),
    /// A stock.
    Stock(Symbol),
    /// A firm.
    Firm(Firm),
    /// The reason of a halt.
    Reason([u8; 4]),
    /// A letter, shown by what it means.
    Letter(Label, u8),
    /// A number without a unit.
    Number(Label, u64),
    /// A number of shares.
    Shares(u32),
    /// A number of shares of a kind.
    Counted(Label, u32),
    /// A price, in units of 1/10,000 dollar.
    Price(u32),
    /// The letter of the display, and the time in force.
    Display(u8, u32),
    /// How long an order lives.
    TimeInForce(u32),
}

// Appends a label and the space after it.
fn put_label(out: &mut Vec<u8>, label: Label) -> Result<(), AllocError>
    ensures { OnOk result (out.new.items ≡ out.old.items ++ labelled label (codes "")) }
{
    out.extend_from_slice(label.words().as_bytes())?;
    out.extend_from_slice(b" ")
}

// Appends a name with its label.
fn put_named(out: &mut Vec<u8>, label: Label, name: &[u8]) -> Result<(), AllocError>
    ensures { OnOk result (out.new.items ≡ out.old.items ++ labelled label (name_words name.now)) }
{
    put_label(out, label)?;
    put_name(out, name)
}

// Appends a letter by what it means, or by itself with its label.
fn put_letter(out: &mut Vec<u8>, label: Label, letter: u8) -> Result<(), AllocError>
    ensures { OnOk result (out.new.items ≡ out.old.items ++ letter_words label letter) }
{
    let words = meaning(label, letter).as_bytes();
    if words.is_empty() {
        return put_named(out, label, &[letter]);
    }
    out.extend_from_slice(words)
}

// Appends how an order is displayed.
fn put_display(out: &mut Vec<u8>, display: u8, time_in_force: u32) -> Result<(), AllocError>
    ensures { OnOk result (out.new.items ≡ out.old.items ++ display_words display time_in_force) }
{
    if is_shown(display, time_in_force) {
        if display == b'A' {
            return out.extend_from_slice(b"displayed with its firm");
        }
        return out.extend_from_slice(b"displayed");
    }
    match display {
        b'Y' | b'A' | b'N' => out.extend_from_slice(b"hidden"),
        _ => put_named(out, Label::Display, &[display]),
    }
}

// Appends how long an order lives.
fn put_time_in_force(out: &mut Vec<u8>, time_in_force: u32) -> Result<(), AllocError>
    ensures { OnOk result (out.new.items ≡ out.old.items ++ time_in_force_words time_in_force) }
{
    match time_in_force {
        0 => out.extend_from_slice(b"immediate or cancel"),
        1..=86_400 => {
            put_number(out, u64::from(time_in_force))?;
            out.extend_from_slice(b" seconds")
        }
        99_998 => out.extend_from_slice(b"market hours"),
        _ => out.extend_from_slice(b"system hours"),
    }
}

// Appends a number of shares with its label.
fn put_counted(out: &mut Vec<u8>, label: Label, shares: u32) -> Result<(), AllocError>
    ensures { OnOk result (out.new.items ≡ out.old.items ++ labelled label (shares_words shares)) }
{
    put_label(out, label)?;
    put_shares(out, shares)
}

// Appends a number with its label.
fn put_numbered(out: &mut Vec<u8>, label: Label, number: u64) -> Result<(), AllocError>
    ensures { OnOk result (out.new.items ≡ out.old.items ++ part_words (Part.Number label number)) }
{
    put_label(out, label)?;
    put_number(out, number)
}

// Appends a field.
fn put_part(out: &mut Vec<u8>, part: &Part) -> Result<(), AllocError>
    ensures { OnOk result (out.new.items ≡ out.old.items ++ part_words part.now) }
{
    match part {
        Part::Token(label, token) => put_named(out, *label, &token.0),
        Part::Stock(stock) => put_named(out, Label::Stock, &stock.0),
        Part::Firm(firm) => put_named(out, Label::Firm, &firm.0),
        Part::Reason(reason) => put_named(out, Label::HaltReason, reason),
        Part::Letter(label, letter) => put_letter(out, *label, *letter),
        Part::Number(label, number) => put_numbered(out, *label, *number),
        Part::Shares(shares) => put_shares(out, *shares),
        Part::Counted(label, shares) => put_counted(out, *label, *shares),
        Part::Price(units) => put_dollars(out, *units),
        Part::Display(display, time_in_force) => put_display(out, *display, *time_in_force),
        Part::TimeInForce(time_in_force) => put_time_in_force(out, *time_in_force),
    }
}

/// Appends a message: its name in its column, and its fields with commas between them.
pub fn put_message(out: &mut Vec<u8>, name: &str, parts: &[Part]) -> Result<(), AllocError>
    ensures { OnOk result (out.new.items ≡ out.old.items ++ message_words name.now parts.now) }
{
    let Some((first, others)) = parts.split_first() else {
        return out.extend_from_slice(name.as_bytes());
    };
    put_column(out, NAME_WIDTH, name.as_bytes())?;
    put_part(out, first)?;
    for part in others {
        out.extend_from_slice(b", ")?;
        put_part(out, part)?;
    }
    Ok(())
}
