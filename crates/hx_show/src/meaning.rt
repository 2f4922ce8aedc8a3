//! What the letters of fields mean, in words; nothing if a letter means nothing.
ghost use Rattle.std.specs.Prelude.{◌≡◌};
ghost use Rattle.hx_show.specs.Meanings.{side, liquidity, cancel_reason, reject_reason, break_reason, day_event, hours_event, trading_state, meaning};

use crate::label::Label;

// OUCH 4.2 and ITCH 5.0: Buy/Sell Indicator.
fn side(letter: u8) -> &'static str
    ensures { result.now ≡ side letter }
{
    match letter {
        b'B' => "buy",
        b'S' => "sell",
        b'T' => "sell short",
        b'E' => "sell short exempt",
        _ => "",
    }
}

// OUCH 4.2, Executed: Liquidity Flag.
fn liquidity(letter: u8) -> &'static str
    ensures { result.now ≡ liquidity letter }
{
    match letter {
        b'A' => "added",
        b'J' => "added hidden",
        b'R' => "removed",
        _ => "",
    }
}

// OUCH 4.2, Canceled: Reason.
fn cancel_reason(letter: u8) -> &'static str
    ensures { result.now ≡ cancel_reason letter }
{
    match letter {
        b'U' => "by the member",
        b'I' => "immediate or cancel",
        b'T' => "timeout",
        _ => "",
    }
}

// OUCH 4.2, Rejected: Reason.
fn reject_reason(letter: u8) -> &'static str
    ensures { result.now ≡ reject_reason letter }
{
    match letter {
        b'C' => "market closed",
        b'S' => "no such stock",
        b'H' => "stock halted",
        b'O' => "side or cross type",
        b'D' => "no such display",
        b'Z' => "shares out of range",
        b'X' => "price out of range",
        b'N' => "minimum not allowed",
        _ => "",
    }
}

// OUCH 4.2, Broken Trade: Reason.
fn break_reason(letter: u8) -> &'static str
    ensures { result.now ≡ break_reason letter }
{
    match letter {
        b'S' => "by the exchange",
        _ => "",
    }
}

// OUCH 4.2, System Event: Event Code.
fn day_event(letter: u8) -> &'static str
    ensures { result.now ≡ day_event letter }
{
    match letter {
        b'S' => "start of day",
        b'E' => "end of day",
        _ => "",
    }
}

// ITCH 5.0, System Event: Event Code.
fn hours_event(letter: u8) -> &'static str
    ensures { result.now ≡ hours_event letter }
{
    match letter {
        b'O' => "start of messages",
        b'S' => "start of system hours",
        b'Q' => "start of market hours",
        b'M' => "end of market hours",
        b'E' => "end of system hours",
        b'C' => "end of messages",
        _ => "",
    }
}

// ITCH 5.0, Stock Trading Action: Trading State.
fn trading_state(letter: u8) -> &'static str
    ensures { result.now ≡ trading_state letter }
{
    match letter {
        b'H' => "halted",
        b'T' => "trading",
        _ => "",
    }
}

/// What a letter means in the field of this label, or nothing.
pub fn meaning(label: Label, letter: u8) -> &'static str
    ensures { result.now ≡ meaning label letter }
{
    match label {
        Label::Side => side(letter),
        Label::Liquidity => liquidity(letter),
        Label::CancelReason => cancel_reason(letter),
        Label::RejectReason => reject_reason(letter),
        Label::BreakReason => break_reason(letter),
        Label::DayEvent => day_event(letter),
        Label::HoursEvent => hours_event(letter),
        Label::TradingState => trading_state(letter),
        _ => "",
    }
}
