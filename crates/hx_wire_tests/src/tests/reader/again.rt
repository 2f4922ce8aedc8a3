//! A step of a screen that finds no memory is made again, and gives its message then.
//!
//! Here it has all the memory that it needs: `rt try --test --fail-alloc N` refuses its growths, one after the other.
ghost use Rattle.std.specs.Prelude.{◌<◌, ◌^◌};
ghost use Rattle.hx_itch.specs.Message.{feed_time};

use crate::tests::{equal, holds};
use hx_itch::{AddOrder, Feed, encode};
use hx_mold::cut;
use hx_reader::{ApplyError, Screen, ScreenError};
use hx_units::Symbol;
use std::process::Abort;
use std::test::*;

const SESSION: [u8; 10] = *b"HX00000001";

// Half past nine.
const TIME: u64 = 34_200_000_000_000;

// How many buys there are, each a cent above the one before.
const BUYS: u64 = 40;

// Buy number n, of 100 shares: the first one at 10.01.
fn buy(n: u64) -> Feed
    ensures { feed_time result < 2 ^ 48 }
{
    Feed::AddOrder(AddOrder {
        locate: 1,
        time: TIME,
        reference: n,
        side: b'B',
        shares: 100,
        stock: Symbol(*b"ABCD    "),
        price: 100_000 + 100 * (n % 100) as u32,
    })
}

// The next message. If the first step for it finds no memory, the reader is as it was, and the second gives it.
fn step<R: Abort>(rt: &R, screen: &mut Screen) -> Result<Option<Feed>, ScreenError> {
    let before = screen.reader.progress();
    let reported = screen.step();
    if !matches!(reported, Err(ScreenError::Apply(ApplyError::NoMemory))) {
        return reported;
    }
    holds(rt, screen.reader.progress() == before);
    screen.step()
}

// Forty buys come in one datagram or more, and are handed out one by one: the best bid is always the last one. In the
// end that is 10.40, with one order of 100 shares.
#[test]
fn buys_one_by_one(rt: HostRuntime) -> Result<(), Fail> {
    let mut screen = Screen::new(rt.alloc(), SESSION, 64)?;
    for n in 1..BUYS + 1 {
        for packet in cut(rt.alloc(), SESSION, n, &[encode(&buy(n))])? {
            screen.receive(packet.as_slice());
        }
    }
    for n in 1..BUYS + 1 {
        holds(&rt, step(&rt, &mut screen)? == Some(buy(n)));
        let best = screen.book.bid(1, None).ok_or("a bid")?;
        holds(&rt, best.orders == 1 && best.shares == 100);
    }
    holds(&rt, step(&rt, &mut screen)?.is_none());
    let best = screen.book.bid(1, None).ok_or("a bid")?;
    equal(&rt, best.price, 104_000);
    Ok(())
}
