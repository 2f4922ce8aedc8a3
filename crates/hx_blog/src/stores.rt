//! The writer's pass: it stores words above the count, and then the count.
ghost use Rattle.hx_blog.specs.Ends.{most_room};
ghost use Rattle.std.specs.Prelude.{◌≡◌, suc, ◌+◌, ◌*◌, ◌<◌, ◌≤◌, ◌++◌, ◌∷◌, [], length};
ghost use Rattle.hx_blog.specs.Packed.{IsMessage, packed};
ghost use Rattle.hx_blog.specs.Feed.{feed};
ghost use Rattle.hx_blog.specs.Views.{writing, IsWriting};

use crate::rule::{LogSeat, LogTable};
use crate::view::View;
use atomic_table::Play;
use std::marker::{Brand, PhantomData};

/// Names the message whose last word is stored.
pub(crate) trait NamesMessage {
    ghost use Rattle.std.specs.Prelude.{List, ℕ};

    ghost message: { List ℕ };
}

impl NamesMessage for Brand {
    ghost use Rattle.std.specs.Prelude.{[]};

    ghost message = { [] };
}

/// Names the entries that are published, and the messages that stay staged.
pub trait NamesEntries<E> {
    ghost use Rattle.std.specs.Prelude.{List, ℕ};
    ghost use Rattle.hx_blog.specs.Feed.{Entries};

    ghost entries: { Entries E };

    ghost left: { List (List ℕ) };
}

impl<E> NamesEntries<E> for Brand {
    ghost use Rattle.std.specs.Prelude.{[]};

    ghost entries = { [] };

    ghost left = { [] };
}

struct StoreWord;

impl<E> Play<(), View<E>> for StoreWord {
    ghost use Rattle.hx_blog.specs.Steps.{StoresWord};

    ghost then = { StoresWord };
}

struct StoreLastWord<N> {
    named: PhantomData<N>,
}

impl<E, N: NamesMessage> Play<(), View<E>> for StoreLastWord<N> {
    ghost use Rattle.hx_blog.specs.Steps.{StoresLastWord};

    ghost then = { StoresLastWord N.message };
}

struct StoreCount<N> {
    named: PhantomData<N>,
}

impl<E, N: NamesEntries<E>> Play<(), View<E>> for StoreCount<N> {
    ghost use Rattle.hx_blog.specs.Steps.{StoresCount};

    ghost then = { StoresCount N.entries N.left };
}

/// Stores the six words of a message after those that stand, from the word `first` on, and leaves the count.
pub(crate) fn store_message<E, N: NamesMessage>(
    table: &LogTable<E>,
    seat: &mut LogSeat<E>,
    first: usize,
    words: &[u64; 6],
)
    requires log { seat.old.table_id ≡ table.now.shared.table_id }
    requires sized { table.now.shared.table_id.words ≡ 6 * table.now.shared.key + 1 }
    requires writing { IsWriting seat.old.me }
    requires after { first
        ≡ suc (6 * (length (feed seat.old.me.0.known) + length seat.old.me.0.staged)) }
    requires room { (first + 5 < table.now.shared.table_id.words)
        × (table.now.shared.key ≤ most_room) }
    requires words { words.now ≡ packed N.message }
    requires message { IsMessage N.message }
    ensures log { seat.new.table_id ≡ seat.old.table_id }
    ensures staged { seat.new.me ≡ (
      writing seat.old.me.0.room seat.old.me.0.known
          (seat.old.me.0.staged ++ N.message ∷ []) [],
      [],
    ) }
{
    for k in 0..5 {
        table.shared.store::<StoreWord>(seat, first + k, words[k]);
    }
    table
        .shared
        .store::<StoreLastWord<N>>(seat, first + 5, words[5]);
}

/// Stores the count, which publishes the first of what is staged.
pub(crate) fn store_count<E, N: NamesEntries<E>>(
    table: &LogTable<E>,
    seat: &mut LogSeat<E>,
    count: u64,
)
    requires log { seat.old.table_id ≡ table.now.shared.table_id }
    requires sized { table.now.shared.table_id.words ≡ 6 * table.now.shared.key + 1 }
    requires writing { IsWriting seat.old.me }
    requires count { count ≡ length (feed seat.old.me.0.known) + length (feed N.entries) }
    requires entries { feed N.entries ++ N.left ≡ seat.old.me.0.staged }
    ensures log { seat.new.table_id ≡ seat.old.table_id }
    ensures published { seat.new.me ≡ (
      writing seat.old.me.0.room
          (seat.old.me.0.known ++ N.entries) N.left [],
      [],
    ) }
{
    table.shared.store::<StoreCount<N>>(seat, 0, count);
}
