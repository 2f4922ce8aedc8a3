//! The readers' pass: they load the count, and words below the count that they have seen.
ghost use Rattle.hx_blog.specs.Ends.{most_room};
ghost use Rattle.std.specs.Prelude.{◌≡◌, ℕ, ◌+◌, ◌*◌, ◌<◌, ◌≤◌, [], length, slice_get, slice_index, slice_index_or, Some};
ghost use mathlib.Core.List.{IsPrefix};
ghost use Rattle.hx_blog.specs.Packed.{IsMessage, packed};
ghost use Rattle.hx_blog.specs.Feed.{feed};
ghost use Rattle.hx_blog.specs.Views.{reading, IsReading};

use crate::rule::{LogSeat, LogTable};
use crate::view::View;
use crate::words::unpack;
use arrayvec::ArrayVec;
use atomic_table::Play;

struct LoadCount;

impl<E> Play<(), View<E>> for LoadCount {
    ghost use Rattle.hx_blog.specs.Steps.{LoadsCount};

    ghost then = { LoadsCount };
}

struct LoadWord;

impl<E> Play<(), View<E>> for LoadWord {
    ghost use Rattle.hx_blog.specs.Steps.{LoadsWord};

    ghost then = { LoadsWord };
}

struct LoadLastWord;

impl<E> Play<(), View<E>> for LoadLastWord {
    ghost use Rattle.hx_blog.specs.Steps.{LoadsLastWord};

    ghost then = { LoadsLastWord };
}

/// Loads the count of published messages, which the seat knows from then on.
pub(crate) fn load_count<E>(table: &LogTable<E>, seat: &mut LogSeat<E>) -> u64
    requires log { seat.old.table_id ≡ table.now.shared.table_id }
    requires sized { table.now.shared.table_id.words ≡ 6 * table.now.shared.key + 1 }
    requires reading { IsReading seat.old.me }
    ensures log { seat.new.table_id ≡ seat.old.table_id }
    ensures loaded { seat.new.me
        ≡ (
          reading seat.old.me.0.room seat.new.me.0.known seat.old.me.0.read
              (seat.old.me.0.loads + 1),
          [],
        ) }
    ensures known { IsPrefix seat.old.me.0.known seat.new.me.0.known }
    ensures count { result ≡ length (feed seat.new.me.0.known) }
    ensures within { result ≤ seat.old.me.0.room }
{
    table.shared.load::<LoadCount>(seat, 0)
}

// Loads the first five words of the message at this index, counted from 0, which is known.
fn load_front<E>(table: &LogTable<E>, seat: &mut LogSeat<E>, index: u64) -> [u64; 6]
    requires log { seat.old.table_id ≡ table.now.shared.table_id }
    requires sized { table.now.shared.table_id.words ≡ 6 * seat.old.me.0.room + 1 }
    requires reading { IsReading seat.old.me }
    requires known { index < length (feed seat.old.me.0.known) }
    requires room { (index < seat.old.me.0.room) × (seat.old.me.0.room ≤ most_room) }
    ensures same { (seat.new.table_id ≡ seat.old.table_id) × (seat.new.me ≡ seat.old.me) }
    ensures words { (k : ℕ) → k < 5 → slice_index result k
        ≡ slice_index (packed (slice_index_or (feed seat.old.me.0.known) index [])) k }
    ensures length { length result ≡ 6 }
{
    let mut words = [0; 6];
    let first = 6 * index as usize + 1;
    for k in 0..5 {
        words[k] = table.shared.load::<LoadWord>(seat, first + k);
    }
    words
}

/// Loads the message at this index, counted from 0, which is known.
pub(crate) fn load_message<E>(
    table: &LogTable<E>,
    seat: &mut LogSeat<E>,
    index: u64,
) -> ArrayVec<u8, 44>
    requires log { seat.old.table_id ≡ table.now.shared.table_id }
    requires sized { table.now.shared.table_id.words ≡ 6 * seat.old.me.0.room + 1 }
    requires reading { IsReading seat.old.me }
    requires known { index < length (feed seat.old.me.0.known) }
    requires room { (index < seat.old.me.0.room) × (seat.old.me.0.room ≤ most_room) }
    ensures same { (seat.new.table_id ≡ seat.old.table_id) × (seat.new.me ≡ seat.old.me) }
    ensures message { slice_get (feed seat.old.me.0.known) index ≡ Some result.items }
{
    let mut words = load_front(table, seat, index);
    words[5] = table.shared.load::<LoadWord>(seat, 6 * index as usize + 6);
    unpack(&words)
}

/// Loads the message after those that were read, which is known: it is read from then on.
pub(crate) fn load_next_message<E>(
    table: &LogTable<E>,
    seat: &mut LogSeat<E>,
    read: u64,
) -> ArrayVec<u8, 44>
    requires log { seat.old.table_id ≡ table.now.shared.table_id }
    requires sized { table.now.shared.table_id.words ≡ 6 * seat.old.me.0.room + 1 }
    requires reading { IsReading seat.old.me }
    requires read { read ≡ seat.old.me.0.read }
    requires known { read < length (feed seat.old.me.0.known) }
    requires room { (read < seat.old.me.0.room) × (seat.old.me.0.room ≤ most_room) }
    ensures log { seat.new.table_id ≡ seat.old.table_id }
    ensures read { seat.new.me ≡ (
      reading seat.old.me.0.room seat.old.me.0.known
          (read + 1) seat.old.me.0.loads,
      [],
    ) }
    ensures message { slice_get (feed seat.old.me.0.known) read ≡ Some result.items }
{
    let mut words = load_front(table, seat, read);
    words[5] = table
        .shared
        .load::<LoadLastWord>(seat, 6 * read as usize + 6);
    unpack(&words)
}
