//! What a report counts of a member's day.
ghost use Rattle.std.specs.Prelude.{◌≡◌, ◌==◌, ◌&&◌, List, map, sum_by, count_by, if◌then◌else◌};
ghost use Rattle.hx_tape_lines.specs.Text.{Entry};
ghost use Rattle.hx_tape_lines.specs.Events.{event_of};
ghost use Rattle.hx_report.specs.Sums.{counted};
ghost use Rattle.hx_report.specs.Counts.{IsTally};
ghost use Rattle.hx_report.specs.Days.{IsDay};

use crate::census::ChainMark;
use crate::check::Check;
use crate::day::Day;
use crate::marks::Mark;
use crate::rest::Rested;
use hx_units::MemberNo;

/// What a member did on a day, counted. A number stops at the greatest of 64 bits.
#[derive(Clone, Copy, Debug, PartialEq, Eq, Drop)]
pub struct Tally {
    /// Its messages, unreadable ones included.
    pub messages: u64,
    /// Its chains: entered tokens, each with those that replaced it.
    pub chains: u64,
    /// How many of them were never displayed and never traded.
    pub quiet: u64,
    /// The shares of its hidden orders that came to rest.
    pub rested: u64,
    /// Its executions: one with itself counts for both sides.
    pub trades: u64,
}

/// What a report says of a member.
#[derive(Clone, Copy, Debug, PartialEq, Eq, Drop)]
pub struct Row {
    /// Its number.
    pub member: MemberNo,
    /// What it did.
    pub tally: Tally,
    /// What the others get without its quiet chains.
    pub check: Check,
}

fn messages_of(marks: &[Mark], member: MemberNo) -> u64
    ensures { result ≡ counted (count_by (λ mark. mark.sender == member) marks.now) }
{
    let mut count: u64 = 0;
    for mark in marks {
        if mark.sender == member.get() {
            count = count.saturating_add(1);
        }
    }
    count
}

fn chains_of(chains: &[ChainMark], member: MemberNo) -> u64
    ensures { result ≡ counted (count_by (λ chain. chain.member == member) chains.now) }
{
    let mut count: u64 = 0;
    for chain in chains {
        if chain.member == member {
            count = count.saturating_add(1);
        }
    }
    count
}

fn quiet_of(chains: &[ChainMark], member: MemberNo) -> u64
    ensures { result ≡ counted (count_by (λ chain. chain.member == member && chain.quiet)
        chains.now) }
{
    let mut count: u64 = 0;
    for chain in chains {
        if chain.member == member && chain.quiet {
            count = count.saturating_add(1);
        }
    }
    count
}

fn rested_of(rested: &[Rested], member: MemberNo) -> u64
    ensures { result ≡ counted (sum_by (λ rest. if rest.member == member then rest.shares else 0)
        rested.now) }
{
    let mut count: u64 = 0;
    for rest in rested {
        if rest.member == member {
            count = count.saturating_add(u64::from(rest.shares));
        }
    }
    count
}

fn trades_of(traded: &[MemberNo], member: MemberNo) -> u64
    ensures { result ≡ counted (count_by (λ other. other == member) traded.now) }
{
    let mut count: u64 = 0;
    for other in traded {
        if *other == member {
            count = count.saturating_add(1);
        }
    }
    count
}

impl Tally {
    /// What a member did on a day.
    pub(crate) fn of(day: &Day, member: MemberNo) -> Tally
        ensures { (es : List Entry) → IsDay day.now es
            → IsTally day.now.setup member (map event_of es) result }
    {
        Tally {
            messages: messages_of(&day.marks, member),
            chains: chains_of(&day.chains, member),
            quiet: quiet_of(&day.chains, member),
            rested: rested_of(&day.rested, member),
            trades: trades_of(&day.traded, member),
        }
    }
}
