//! What holds of tapes, whatever their events.
ghost use Rattle.std.specs.Prelude.{◌≡◌, List, map, replicate};
ghost use Rattle.std.specs.List.{AllByRecursion};
ghost use Rattle.hx_members.specs.Setups.{Setup};
ghost use Rattle.hx_market.specs.Steps.{run, output};
ghost use Rattle.hx_tape_lines.specs.Text.{Entry, IsEntry, entry_of_event, tape};
ghost use Rattle.hx_replay.specs.Output.{outputs_lines};
ghost use Rattle.hx_rules.specs.declared.event.Event.{Event};
ghost use Rattle.hx_replay.specs.Seen.{LeavesNoTrace};
ghost use Rattle.hx_audit.specs.Recording.{AreRecorded};
ghost use Rattle.hx_tape_lines.specs.Events.{IsKnown, event_of};
ghost use Rattle.hx_replay.specs.Quiet.{TellsNothing, TextsTellNothing};
ghost use Rattle.hx_replay.specs.Histories.{IsReplayed};
ghost use Rattle.hx_replay.specs.Run.{start, output_all, after_all, AreEvents};

/// A text is the tape of one list of entries.
#[tactic(auto, using(crate::proofs::OneReading::tape_same))]
pub fn one_reading()
    ensures { (es fs : List Entry) → AllByRecursion IsEntry es → AllByRecursion IsEntry fs
        → tape es ≡ tape fs → es ≡ fs }
{}

/// The output text of a tape is the text of the market's output, and its last market is the one after the run.
#[tactic(auto, using(crate::proofs::OutputIsOfEvents::output_is_of_events, crate::proofs::OutputIsOfEvents::market_is_run))]
pub fn output_is_of_events()
    ensures text { (setup : Setup) (es : List Entry)
        → output_all (start setup) es
        ≡ outputs_lines 0 (replicate 4096 0) (output setup (map event_of es)) }
    ensures market { (setup : Setup) (es : List Entry)
        → (after_all (start setup) es).market ≡ run setup (map event_of es) }
{}

/// The headline, of tapes: the output text of a tape is that of the market's lines, and for every member the lines that
/// do not go to it are, numbers included, those of the tape without the messages of its quiet chains.
pub fn leaves_no_trace()
    ensures { (setup : Setup) (es : List Entry) → LeavesNoTrace setup es }
{}

/// Its general form: any whole quiet chains of a member leave no output to anybody else, those of all members nothing
/// in the feed, and those of all others leave a member nothing, neither in the feed nor in its replies.
pub fn tells_nothing()
    ensures { (setup : Setup) (events : List Event) → TellsNothing setup events }
{}

/// The headline, on texts: without a member's quiet chains a tape is still taken by `replay`, and without the lines to
/// that member both outputs are one text. The same without anybody's quiet chains, of the lines of the feed.
pub fn texts_tell_nothing()
    ensures { (setup : Setup) (es : List Entry) → AreEvents (start setup) es
        → TextsTellNothing setup es }
{}

/// A recorded history of events that lines say is a tape, which `replay` takes, and what it writes for it is the text
/// of the market's output, numbers included.
pub fn a_history_is_a_tape()
    ensures { (setup : Setup) (es : List Entry) → AllByRecursion IsKnown es
        → AreRecorded setup (map event_of es)
        → IsReplayed setup (map event_of es) (map entry_of_event (map event_of es)) }
{}
