//! Passes that are handed in at the end.
ghost use Rattle.std.specs.Prelude.{◌≡◌, ◌+◌, ◌-◌, ◌<◌, ◌≤◌, [], length, false, IfOk, IfErr, IfSome, IfNone};
ghost use Rattle.std.specs.List.{AllByRecursion};
ghost use Rattle.hx_engine.specs.Finish.{is_any_waiting, times_given, sent_by_all, AreAllOnce, IsMissing, IsReturned};

use crate::pass::Pass;
use crate::venue::Venue;
use hx_blog::Log;
use hx_desk::{Desk, Entry};
use std::sync::ledger::Share;

// The number of times that the pass of a number is among these.
fn times_given<V: Venue>(passes: &[Pass<V>], number: u16) -> usize
    ensures { result ≡ times_given number passes.now }
{
    let mut count = 0;
    for pass in passes {
        if number == pass.number() {
            count += 1;
        }
    }
    count
}

/// The least pass of these numbers that is not there exactly once.
pub fn missing<V: Venue>(passes: &[Pass<V>], count: u16) -> Option<u16>
    requires { count < 65535 }
    ensures some { IfSome result (IsMissing count passes.now) }
    ensures none { IfNone result (AreAllOnce count passes.now) }
{
    for number in 1..=count {
        if times_given(passes, number) != 1 {
            return Some(number);
        }
    }
    None
}

/// Whether an event of one of these passes was admitted, and was never published.
pub fn is_any_waiting<V: Venue>(passes: &[Pass<V>]) -> bool
    ensures { result ≡ is_any_waiting passes.now }
{
    for pass in passes {
        if pass.waiting_len() != 0 {
            return true;
        }
    }
    false
}

// Takes a pass back: its share, and what it knew.
fn take_back<V: Venue>(desk: &mut Desk, log: &Log<Entry>, share: &mut Share<V>, pass: Pass<V>)
    requires log { log.now ≡ V.log }
    requires desk { desk.old.log ≡ V.log }
    requires live { length pass.waiting ≡ 0 }
    ensures same { desk.new ≡ desk.old }
    ensures parts { share.new.parts ≡ share.old.parts + 1 }
    ensures amount { share.new.amount ≡ share.old.amount + length pass.sent }
    ensures returned { IsReturned V.parts desk.old.published pass }
{
    let Pass {
        number: _,
        sent: _,
        published_end: _,
        knows,
        entered: _,
        share: own,
        passed: _,
    } = pass;
    desk.confirm(log, knows);
    share.merge(own);
}

/// Takes all passes back.
pub fn take_all_back<V: Venue>(
    desk: &mut Desk,
    log: &Log<Entry>,
    share: &mut Share<V>,
    passes: Vec<Pass<V>>,
)
    requires log { log.now ≡ V.log }
    requires desk { desk.old.log ≡ V.log }
    requires live { is_any_waiting passes.items ≡ false }
    ensures same { desk.new ≡ desk.old }
    ensures parts { share.new.parts ≡ share.old.parts + length passes.items }
    ensures amount { share.new.amount ≡ share.old.amount + sent_by_all passes.items }
    ensures returned { AllByRecursion (IsReturned V.parts desk.old.published) passes.items }
{
    let mut passes = passes;
    while let Some(pass) = passes.pop() {
        take_back(desk, log, share, pass);
    }
}
