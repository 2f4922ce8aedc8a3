//! What is done for an event once all its growths are made. None of it takes memory or can fail.
ghost use Rattle.std.specs.Prelude.{◌≡◌, ◌+◌, ◌^◌, ◌<◌, ◌≤◌, [], ◌∷◌, ◌++◌, length, Some};
ghost use Rattle.std.specs.List.{AllByRecursion};
ghost use Rattle.std.specs.Vec.{vec_len, vec_capacity};
ghost use Rattle.hx_itch.specs.Message.{feed_time};
ghost use Rattle.hx_blog.specs.Ends.{room_of};
ghost use Rattle.hx_desk.specs.Rows.{members_of, with_replies, HasRoomFor};
ghost use Rattle.hx_desk.specs.Entries.{feed_spelled};
ghost use Rattle.hx_desk.specs.Desks.{outcome_at, messages_in, with_staged};

use crate::entry::Entry;
use crate::rows::Rows;
use hx_blog::{Log, Writer};
use hx_itch::{Feed, encode};
use hx_levels::LevelBook;
use hx_market::{Market, Prepared};

/// Stages messages of the feed, for which there is room.
fn stage_all(writer: &mut Writer<Entry>, log: &Log<Entry>, messages: &[Feed])
    requires log { writer.old.log ≡ log.now }
    requires room { messages_in writer.old + length messages.now ≤ room_of log.now }
    requires times { AllByRecursion (λ f. feed_time f < 2 ^ 48) messages.now }
    ensures { writer.new ≡ record writer.old {
      staged = writer.old.staged
          ++ feed_spelled messages.now;
    } }
{
    for message in messages {
        if writer.stage(log, &encode(message)).is_err() {
            unreachable!();
        }
    }
}

/// Does what was prepared for an entry: one step of the market, whose messages of the feed are staged, and whose
/// replies are added to their members' rows, not yet published.
pub(crate) fn commit_entry(
    market: &mut Market<LevelBook>,
    writer: &mut Writer<Entry>,
    history: &mut Vec<Entry>,
    rows: &mut Rows,
    log: &Log<Entry>,
    prepared: Prepared,
    entry: Entry,
)
    requires ready { market.old.ready ≡ Some prepared }
    requires event { prepared.event ≡ entry.event }
    requires log { writer.old.log ≡ log.now }
    requires slots { messages_in writer.old + length
        (outcome_at market.old entry.event).output.feed ≤ room_of log.now }
    requires place { vec_len history.old < vec_capacity history.old }
    requires rows { HasRoomFor rows.old.spare
        (members_of (outcome_at market.old entry.event).output.replies) }
    ensures market { market.new.market ≡ (outcome_at market.old entry.event).market }
    ensures setup { market.new.setup ≡ market.old.setup }
    ensures writer { writer.new
        ≡ with_staged writer.old (outcome_at market.old entry.event).output.feed }
    ensures history { history.new.items ≡ history.old.items ++ entry ∷ [] }
    ensures rows { rows.new.rows
        ≡ with_replies rows.old.rows (outcome_at market.old entry.event).output.replies }
    ensures published_end { rows.new.published_end ≡ rows.old.published_end }
{
    let output = market.commit(prepared);
    stage_all(writer, log, &output.feed);
    history.push_reserved(entry);
    rows.add(&output.replies);
    market.take_back(output);
}
