//! The log itself.
ghost use Rattle.std.specs.Prelude.{◌≡◌, ◌+◌, ◌*◌, ◌≤◌, [], replicate, IfOk};
ghost use Rattle.hx_blog.specs.Ends.{room_of, most_room};
ghost use Rattle.hx_blog.specs.Views.{writing};

use crate::reader::Reader;
use crate::rule::{LogSeat, LogTable};
use crate::seats::split_off;
use crate::writer::Writer;
use atomic_table::Table;
use hx_units::NoMemory;
use std::alloc::Global;
use std::marker::Model;

/// The words that all threads share: the count of published messages, and six words a message. Contracts see
/// which log it is. `E` is the type of events, which only contracts know: the words hold messages alone.
#[derive(Drop)]
pub struct Log<E> {
    pub(crate) table: LogTable<E>,
    pub(crate) capacity: u64,
}

impl<E> Model for Log<E> {
    ghost use Rattle.std.specs.Prelude.{◌≡◌, ◌+◌, ◌*◌, ◌≤◌};
    ghost use Rattle.atomic_table.specs.Seated.{table_id_coded};
    ghost use Rattle.hx_blog.specs.Ends.{LogId, most_room};

    ghost Value = { LogId };

    ghost coded = { table_id_coded };

    ghost view = { λ l. l.table.shared.table_id };

    ghost invariant = { λ l.
        (l.table.shared.key ≡ l.capacity)
        × (l.table.shared.table_id.words ≡ 6 * l.capacity + 1)
        × (l.capacity ≤ most_room) };
}

impl<E> Log<E> {
    /// A log with room for `capacity` messages, 1 to 1,000,000, its writer, and a reader that knows nothing. It takes
    /// 48 bytes a message, and for a moment twice as much.
    pub fn new(alloc: Global, capacity: u64) -> Result<(Log<E>, Writer<E>, Reader<E>), NoMemory>
        requires { (1 ≤ capacity) × (capacity ≤ most_room) }
        ensures room { IfOk result (λ ends. room_of ends.0 ≡ capacity) }
        ensures writer { IfOk result
            (λ ends. ends.1 ≡ record { log = ends.0; published = []; staged = [] }) }
        ensures reader { IfOk result
            (λ ends. ends.2 ≡ record { log = ends.0; known = []; seen = 0; read = 0; loads = 0 }) }
    {
        let words = zeros(alloc, 6 * capacity as usize + 1)?;
        let (table, seat) = Table::of_words(alloc, words.as_slice(), &capacity)?;
        Ok(opened(table, seat, capacity))
    }
}

// `count` words, all 0.
fn zeros(alloc: Global, count: usize) -> Result<Vec<u64>, NoMemory>
    ensures { IfOk result (λ words. words.items ≡ replicate count 0) }
{
    Ok(vec![in alloc; 0u64; count]?)
}

// The log of a new table, with its writer and a reader.
fn opened<E>(
    table: LogTable<E>,
    mut seat: LogSeat<E>,
    capacity: u64,
) -> (Log<E>, Writer<E>, Reader<E>)
    requires room { (table.shared.key ≡ capacity) × (capacity ≤ most_room) }
    requires sized { table.shared.table_id.words ≡ 6 * capacity + 1 }
    requires log { seat.table_id ≡ table.shared.table_id }
    requires writing { seat.me ≡ (writing capacity [] [] [], []) }
    ensures log { result.0 ≡ table.shared.table_id }
    ensures writer { result.1 ≡ record {
      log = table.shared.table_id;
      published = [];
      staged = [];
    } }
    ensures reader { result.2 ≡ record {
      log = table.shared.table_id;
      known = [];
      seen = 0;
      read = 0;
      loads = 0;
    } }
{
    let first = split_off(&table, &mut seat);
    (
        Log { table, capacity },
        Writer {
            seat,
            count: 0,
            staged: 0,
        },
        Reader {
            seat: first,
            seen: 0,
            read: 0,
        },
    )
}
