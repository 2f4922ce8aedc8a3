//! What holds of the records of events.
ghost use Rattle.std.specs.Prelude.{◌≡◌, ℕ, List};
ghost use Rattle.hx_rules.specs.declared.event.Event.{Event};
ghost use Rattle.hx_tape_lines.specs.Text.{entry_of_event, record_of, IsPlain};
ghost use Rattle.hx_tape_lines.specs.Events.{CanBeSent, IsKnown, IsLineOf, IsOnlyLineOf};

/// A record is of spaces, decimal digits and letters a to f alone, and a digit stands first: so no zero and no line feed
/// stands in it, and it is no mark of a journal.
#[tactic(auto, using(crate::proofs::Plain::plain_record))]
pub fn a_record_is_plain()
    ensures { (event : Event) → IsPlain (record_of event) }
{}

/// An event that can be sent has a line, which says something: its record is the line of this event, and of no other.
pub fn a_record_is_of_one_event()
    ensures known { (event : Event) → CanBeSent event → IsKnown (entry_of_event event) }
    ensures read { (event : Event) → CanBeSent event → IsOnlyLineOf (record_of event) event }
{}

/// The line of an event, whichever event is read of it, is this event's record.
pub fn a_line_is_a_record()
    ensures { (text : List ℕ) (event : Event) → IsLineOf text event → text ≡ record_of event }
{}
