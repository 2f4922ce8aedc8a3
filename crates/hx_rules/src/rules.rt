//! The rules of Enter and Replace (OUCH 4.2, Enter Order and Replace Order Message).
ghost use Rattle.std.specs.Prelude.{◌≡◌, ◌<◌, ◌^◌};
ghost use Rattle.hx_members.specs.Setups.{Setup as SetupOf, locate_of};
ghost use Rattle.hx_rules.specs.Orders.{is_side, side_of, is_visible, is_display, is_shown, life_of, published_side};
ghost use Rattle.hx_rules.specs.Markets.{is_open, is_halted};
ghost use Rattle.hx_rules.specs.Enter.{rejection, is_bad_shares, is_bad_price, is_late};
ghost use Rattle.hx_rules.specs.Replace.{replace_fails};

use crate::letters;
use hx_book::Life;
use hx_ouch::{Enter, Replace};
use hx_units::{Price, Shares, Side};

// The most seconds that an order can ask for: a day (OUCH 4.2, Enter Order: Time in Force).
const MOST_SECONDS: u32 = 86400;

// The time in force that ends with the market hours.
const MARKET_HOURS: u32 = 99998;

/// The side of an order's letter.
pub fn side_of(letter: u8) -> Side
    ensures { result ≡ side_of letter }
{
    match letter {
        b'B' => Side::Buy,
        b'S' => Side::Sell,
        b'T' => Side::Short,
        _ => Side::ShortExempt,
    }
}

/// The side as the feed has it.
pub fn published_side(side: Side) -> u8
    ensures { result ≡ published_side side }
{
    match side {
        Side::Buy => b'B',
        _ => b'S',
    }
}

/// Whether an order is shown once it rests.
pub fn is_shown(display: u8, time_in_force: u32) -> bool
    ensures { result ≡ is_shown display time_in_force }
{
    is_visible(display) && time_in_force != 0
}

/// How long an order lives that comes at a time.
pub fn life_of(time: u64, time_in_force: u32) -> Life
    requires { time < 2 ^ 62 }
    ensures { result ≡ life_of time time_in_force }
{
    if 1 <= time_in_force && time_in_force <= MOST_SECONDS {
        Life::Until(time + time_in_force as u64 * 1_000_000_000)
    } else if time_in_force == MARKET_HOURS {
        Life::Market
    } else {
        Life::System
    }
}

fn is_visible(display: u8) -> bool
    ensures { result ≡ is_visible display }
{
    display == letters::ANONYMOUS || display == letters::ATTRIBUTABLE
}

fn is_display(display: u8) -> bool
    ensures { result ≡ is_display display }
{
    is_visible(display) || display == letters::NON_DISPLAY
}

fn is_side(letter: u8) -> bool
    ensures { result ≡ is_side letter }
{
    letter == b'B' || letter == b'S' || letter == b'T' || letter == b'E'
}

fn is_bad_shares(shares: u32) -> bool
    ensures { result ≡ is_bad_shares shares }
{
    shares == 0 || shares > Shares::MAX
}

fn is_bad_price(price: u32) -> bool
    ensures { result ≡ is_bad_price price }
{
    price == 0 || price > Price::MAX || (price >= 10_000 && price % 100 != 0)
}

fn is_open(phase: u8) -> bool
    ensures { result ≡ is_open phase }
{
    2 <= phase && phase < 5
}

fn is_late(phase: u8, time_in_force: u32) -> bool
    ensures { result ≡ is_late phase time_in_force }
{
    time_in_force == MARKET_HOURS && phase >= 4
}

/// Whether the stock of this locate is halted.
pub fn is_halted(halted: &[bool], locate: u16) -> bool
    ensures { result ≡ is_halted halted.now locate }
{
    match halted.get(locate as usize) {
        Some(is_halted) => *is_halted,
        None => false,
    }
}

/// The letter of the first reason to reject a message whose stock has this locate, none if it is not one of the day's;
/// with `phase` hours codes past, and with these stocks halted, each under its locate.
#[inline(always)]
pub fn rejection(locate: Option<u16>, phase: u8, halted: &[bool], enter: &Enter) -> Option<u8>
    ensures { (setup : SetupOf) → locate_of setup enter.now.stock ≡ locate
        → result ≡ rejection setup phase halted.now enter.now }
{
    if !is_open(phase) || is_late(phase, enter.time_in_force) {
        return Some(letters::CLOSED);
    }
    let Some(locate) = locate else {
        return Some(letters::INVALID_STOCK);
    };
    if is_halted(halted, locate) {
        Some(letters::STOCK_HALTED)
    } else if !is_side(enter.side) || enter.cross_type != letters::NO_CROSS {
        Some(letters::OTHER_REASON)
    } else if !is_display(enter.display) {
        Some(letters::INVALID_DISPLAY)
    } else if is_bad_shares(enter.shares) {
        Some(letters::INVALID_SHARES)
    } else if is_bad_price(enter.price) {
        Some(letters::INVALID_PRICE)
    } else if enter.minimum_quantity > enter.shares
        || (enter.minimum_quantity > 0 && is_shown(enter.display, enter.time_in_force))
    {
        Some(letters::INVALID_MINIMUM)
    } else {
        None
    }
}

/// Whether a Replace fails, with `phase` hours codes past and `executed` executed shares of its chain.
pub fn replace_fails(phase: u8, executed: u32, replace: &Replace) -> bool
    ensures { result ≡ replace_fails phase executed replace.now }
{
    is_bad_shares(replace.shares)
        || is_bad_price(replace.price)
        || !is_display(replace.display)
        || is_late(phase, replace.time_in_force)
        || (replace.minimum_quantity > 0 && is_shown(replace.display, replace.time_in_force))
        || replace.shares <= executed
}
