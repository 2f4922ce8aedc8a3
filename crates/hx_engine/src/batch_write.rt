//! A batch on its way to the journal.
ghost use Rattle.std.specs.Prelude.{◌≡◌, [], length, take, drop, IfOk};
ghost use Rattle.hx_tape_lines.specs.Text.{record_of};
ghost use Rattle.hx_desk.specs.Known.{history_of};
ghost use Rattle.hx_engine.specs.Journals.{unspoken, lines};

use crate::journal_writer::JournalWriter;
use crate::spelled::Records;
use crate::venue::Venue;
use hx_blog::{Log, NamesEntries, Receipt};
use hx_desk::Entry;
use hx_journal::{Journal, JournalError};
use std::marker::Brand;

/// The journal with the records that it writes next, and a receipt for the history up to them.
#[derive(Drop)]
pub struct BatchWrite<V: Venue, J: Journal> {
    pub(crate) journal_writer: JournalWriter<V, J>,
    pub(crate) records: Records,
    pub(crate) knows: Receipt<Entry>,
    pub(crate) end: u64,
    pub ghost named: { knows.log ≡ V.admitted },
    pub ghost silent: { knows.known ≡ unspoken (history_of knows.known) },
    pub ghost ends: { end ≡ length knows.known },
    pub ghost begun: { take (length journal_writer.writer.published) knows.known
        ≡ journal_writer.writer.published },
    pub ghost spelled: { records
        ≡ lines record_of (history_of (drop (length journal_writer.writer.published) knows.known)) },
}

/// The journal, which holds all that the receipt knows.
#[derive(Drop)]
pub struct WrittenBatch<V: Venue, J: Journal> {
    pub(crate) journal_writer: JournalWriter<V, J>,
    // A buffer for the records of the next batch.
    pub(crate) room: Records,
    pub(crate) knows: Receipt<Entry>,
    pub(crate) end: u64,
    pub ghost named: { knows.log ≡ V.admitted },
    pub ghost ends: { end ≡ length knows.known },
    pub ghost all: { journal_writer.writer.published ≡ knows.known },
    pub ghost bare: { room ≡ [] },
}

impl<V: Venue, J: Journal + Drop> BatchWrite<V, J> {
    /// Writes and syncs the records. It needs no lock, and may take long. If the journal fails, it is given back with
    /// its error.
    pub fn write_batch(self, durable: &Log<Entry>) -> Result<WrittenBatch<V, J>, (J, JournalError)>
        requires { durable.now ≡ V.durable }
    {
        let BatchWrite {
            journal_writer,
            records,
            knows,
            end,
        } = self;
        let journal_writer = make_all_durable::<V, J, Brand>(
            journal_writer,
            durable,
            &records,
            &knows,
        )?;
        let mut room = records;
        room.clear();
        Ok(WrittenBatch {
            journal_writer,
            room,
            knows,
            end,
        })
    }
}

// Writes and syncs the records of what the receipt knows beyond the durable entries.
fn make_all_durable<V: Venue, J: Journal + Drop, N: NamesEntries<Entry>>(
    journal_writer: JournalWriter<V, J>,
    durable: &Log<Entry>,
    records: &Records,
    knows: &Receipt<Entry>,
) -> Result<JournalWriter<V, J>, (J, JournalError)>
    requires durable { durable.now ≡ V.durable }
    requires silent { knows.now.known ≡ unspoken (history_of knows.now.known) }
    requires begun { take (length journal_writer.writer.published) knows.now.known
        ≡ journal_writer.writer.published }
    requires entries { N.entries ≡ drop (length journal_writer.writer.published) knows.now.known }
    requires left { N.left ≡ [] }
    requires spelled { records.now ≡ lines record_of (history_of N.entries) }
    ensures { IfOk result (λ k. k.writer.published ≡ knows.now.known) }
{
    journal_writer.make_durable::<N>(durable, records)
}
