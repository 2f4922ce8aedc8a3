//! A tape without the messages of quiet chains.
ghost use Rattle.std.specs.Prelude.{◌≡◌, ◌++◌, ◌∷◌, [], List, map, IfOk, OnOk};
ghost use Rattle.std.specs.List.{AllByRecursion};
ghost use Rattle.hx_units.specs.Letters.{line_feed};
ghost use Rattle.hx_market.specs.Markets.{Market};
ghost use Rattle.hx_rules.specs.declared.event.Event.{Event as Happening};
ghost use Rattle.hx_market.specs.QuietChains.{Choice, bears};
ghost use Rattle.hx_audit.specs.Auditing.{choice_of};
ghost use Rattle.hx_tape_lines.specs.Text.{Entry, line as line_of, tape};
ghost use Rattle.hx_tape_lines.specs.Events.{IsKnown, event_of};
ghost use Rattle.hx_report.specs.declared.marks.Mark.{Mark as Seen};
ghost use Rattle.hx_report.specs.Marks.{mark_of};
ghost use Rattle.hx_report.specs.Struck.{HasStruck};

use crate::marks::Mark;
use hx_audit::Whose;
use hx_units::{NoMemory, split_once};
use std::alloc::Global;

/// A tape without the messages of quiet chains.
#[derive(Drop)]
pub(crate) struct Struck {
    /// Its text.
    pub(crate) text: Vec<u8>,
    /// How many lines are missing.
    pub(crate) gone: u64,
}

impl Mark {
    // Whether the line is struck with these chains.
    fn is_struck(&self, whose: &Whose) -> bool
        ensures { (market : Market) (event : Happening) → self.now ≡ mark_of market event
            → result ≡ bears (choice_of whose.now market) event }
    {
        match whose {
            Whose::Of(member) => self.sender == member.get() && self.quiet,
            Whose::OfAll => self.quiet,
        }
    }
}

impl Struck {
    // Nothing yet, and room for `room` bytes.
    fn new(alloc: Global, room: usize) -> Result<Struck, NoMemory>
        ensures { IfOk result (λ struck. (choice : Choice) → HasStruck choice struck []) }
    {
        Ok(Struck {
            text: Vec::with_capacity(alloc, room)?,
            gone: 0,
        })
    }

    // Takes a line, with its line feed.
    fn take(&mut self, line: &[u8], mark: &Mark, whose: &Whose) -> Result<(), NoMemory>
        ensures { OnOk result ((market : Market) (es : List Entry) (e : Entry)
            → line.now ≡ line_of e ++ line_feed ∷ [] → mark.now ≡ mark_of market (event_of e)
            → HasStruck (choice_of whose.now market) self.old es
            → HasStruck (choice_of whose.now market) self.new (es ++ e ∷ [])) }
    {
        if mark.is_struck(whose) {
            self.gone = self.gone.saturating_add(1);
            return Ok(());
        }
        self.text.extend_from_slice(line)?;
        Ok(())
    }
}

// The first mark, and the others. There is one.
fn next_mark(marks: &[Mark]) -> (Mark, &[Mark])
    ensures { (mark : Seen) (others : List Seen) → marks.now ≡ mark ∷ others
        → (result.0 ≡ mark) × (result.1.now ≡ others) }
{
    match marks.split_first() {
        Some((mark, others)) => (*mark, others),
        None => (
            Mark {
                sender: 0,
                quiet: false,
            },
            marks,
        ),
    }
}

/// The tape without the messages of these quiet chains.
pub(crate) fn strike(
    alloc: Global,
    text: &[u8],
    marks: &[Mark],
    whose: &Whose,
) -> Result<Struck, NoMemory>
    ensures { IfOk result (λ struck. (market : Market) (es : List Entry)
        → AllByRecursion IsKnown es → text.now ≡ tape es
        → marks.now ≡ map (λ e. mark_of market (event_of e)) es
        → HasStruck (choice_of whose.now market) struck es) }
{
    let mut struck = Struck::new(alloc, text.len())?;
    let (mut rest, mut after) = (text, marks);
    while let Some((line, others)) = split_once(rest, b'\n') {
        let (mark, more) = next_mark(after);
        struck.take(&rest[..line.len() + 1], &mark, whose)?;
        (rest, after) = (others, more);
    }
    Ok(struck)
}
