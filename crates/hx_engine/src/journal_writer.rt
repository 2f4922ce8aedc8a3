//! The journal, with what is known of it.
ghost use mathlib.Core.List.{IsPrefix};
ghost use Rattle.std.specs.Prelude.{◌≡◌, List, ℕ, ◌++◌, [], true, OnOk, IfOk, IfErr};
ghost use Rattle.hx_tape_lines.specs.Text.{record_of};
ghost use Rattle.std.specs.List.{AllByRecursion};
ghost use Rattle.hx_journal.specs.Crashes.{Leaves};
ghost use Rattle.hx_journal.specs.Records.{IsRecord};
ghost use Rattle.hx_desk.specs.Known.{history_of};
ghost use Rattle.hx_engine.specs.Journals.{unspoken, lines};

use crate::spelled::Records;
use crate::venue::Venue;
use hx_blog::{Log, NamesEntries, Receipt, Writer};
use hx_desk::{Desk, Entry};
use hx_journal::{Journal, JournalError};
use std::marker::{Brand, PhantomData};

/// The journal of a venue, with the writer of the log of the durable entries: each crash leaves the records of exactly
/// what is published there.
#[derive(Drop)]
pub struct JournalWriter<V: Venue, J: Journal> {
    pub(crate) journal: J,
    pub(crate) writer: Writer<Entry>,
    pub(crate) of: PhantomData<V>,
    pub ghost named: { writer.log ≡ V.durable },
    pub ghost unstaged: { writer.staged ≡ [] },
    pub ghost silent: { writer.published ≡ unspoken (history_of writer.published) },
    pub ghost recorded: { J.appended journal ≡ lines record_of (history_of writer.published) },
    pub ghost safe: { J.durable journal ≡ J.appended journal },
    pub ghost opened: { J.is_open journal ≡ true },
}

/// Publishes the desk's entries, which were durable before, in this log, without messages.
pub(crate) fn write_before<N: NamesEntries<Entry>>(
    writer: &mut Writer<Entry>,
    log: &Log<Entry>,
    desk: &Desk,
)
    requires log { writer.old.log ≡ log.now }
    requires empty { (writer.old.published ≡ []) × (writer.old.staged ≡ []) }
    requires entries { N.entries ≡ unspoken desk.now.history }
    requires left { N.left ≡ [] }
    ensures { writer.new ≡ record {
      log = writer.old.log;
      published = unspoken desk.now.history;
      staged = [];
    } }
{
    writer.publish_first::<N>(log, 0);
}

// Appends records, and syncs the journal.
fn write_down<J: Journal>(journal: &mut J, records: &Records) -> Result<(), JournalError>
    requires opened { J.is_open journal.old ≡ true }
    requires records { AllByRecursion IsRecord (records.now) }
    ensures appended { OnOk result (J.appended journal.new
        ≡ J.appended journal.old ++ records.now) }
    ensures durable { OnOk result (J.durable journal.new ≡ J.appended journal.new) }
    ensures opened { OnOk result (J.is_open journal.new ≡ true) }
    ensures any_moment { Leaves (J.moment journal.old) (J.moment journal.new)
        (J.left_since journal.old) (J.left_since journal.new) (J.durable journal.old)
        (J.appended journal.old ++ records.now) }
{
    for index in 0..records.len() {
        journal.append(records.get(index))?;
    }
    journal.sync()
}

impl<V: Venue, J: Journal + Drop> JournalWriter<V, J> {
    /// Wraps a journal that holds the records of the desk's entries, and of no others.
    pub(crate) fn open(
        log: &Log<Entry>,
        writer: Writer<Entry>,
        journal: J,
        desk: &Desk,
    ) -> JournalWriter<V, J>
        requires log { log.now ≡ V.durable }
        requires writer { writer ≡ record { log = V.durable; published = []; staged = [] } }
        requires journal { J.appended journal ≡ lines record_of desk.now.history }
        requires safe { (J.durable journal ≡ J.appended journal) × (J.is_open journal ≡ true) }
        ensures { result.writer.published ≡ unspoken desk.now.history }
    {
        let mut writer = writer;
        write_before::<Brand>(&mut writer, log, desk);
        JournalWriter {
            journal,
            writer,
            of: PhantomData,
        }
    }

    /// Writes and syncs the records of the entries that `N` names. At any moment of the call a crash leaves all that
    /// was durable before, and nothing but a beginning of that and these. If the journal fails, it is given back with
    /// its error.
    pub fn make_durable<N: NamesEntries<Entry>>(
        self,
        log: &Log<Entry>,
        records: &Records,
    ) -> Result<JournalWriter<V, J>, (J, JournalError)>
        requires log { log.now ≡ V.durable }
        requires silent { N.entries ≡ unspoken (history_of N.entries) }
        requires left { N.left ≡ [] }
        requires records { records.now ≡ lines record_of (history_of N.entries) }
        ensures durable { IfOk result (λ k.
            k.writer.published ≡ self.writer.published ++ N.entries) }
        ensures any_moment { IfOk result (λ k. Leaves (J.moment self.journal)
            (J.moment k.journal) (J.left_since self.journal) (J.left_since k.journal)
            (J.durable self.journal) (J.appended self.journal
            ++ lines record_of (history_of N.entries))) }
        ensures failing { IfErr result (λ e. Leaves (J.moment self.journal)
            (J.moment e.0) (J.left_since self.journal) (J.left_since e.0)
            (J.durable self.journal) (J.appended self.journal
            ++ lines record_of (history_of N.entries))) }
    {
        let JournalWriter {
            mut journal,
            mut writer,
            of,
        } = self;
        if let Err(error) = write_down(&mut journal, records) {
            return Err((journal, error));
        }
        writer.publish_first::<N>(log, 0);
        Ok(JournalWriter {
            journal,
            writer,
            of,
        })
    }

    /// A receipt for all that is durable.
    pub fn receipt(&mut self, log: &Log<Entry>) -> Receipt<Entry>
        requires log { log.now ≡ V.durable }
        ensures published { self.new.writer.published ≡ self.old.writer.published }
        ensures journal { self.new.journal ≡ self.old.journal }
        ensures receipt { result ≡ record { log = V.durable; known = self.old.writer.published } }
    {
        self.writer.receipt(log)
    }

    /// Whether the journal touches no disk.
    pub fn is_quick(&self) -> bool {
        self.journal.is_quick()
    }

    /// The receipt knows from now on all that is durable.
    pub fn renew(&mut self, log: &Log<Entry>, receipt: &mut Receipt<Entry>)
        requires log { log.now ≡ V.durable }
        requires receipt { receipt.old.log ≡ V.durable }
        ensures published { self.new.writer.published ≡ self.old.writer.published }
        ensures receipt { receipt.new
            ≡ record { log = V.durable; known = self.old.writer.published } }
    {
        receipt.catch_up(log, &mut self.writer);
    }

    /// Shows that whatever a crash leaves of the journal now begins with the records of all that the receipt knows.
    pub fn covers(&mut self, log: &Log<Entry>, receipt: Receipt<Entry>)
        requires log { log.now ≡ V.durable }
        requires receipt { receipt.log ≡ V.durable }
        ensures published { self.new.writer.published ≡ self.old.writer.published }
        ensures journal { self.new.journal ≡ self.old.journal }
        ensures covered { (c : List (List ℕ))
            → J.left_since self.new.journal (J.moment self.new.journal) c
            → IsPrefix (lines record_of (history_of receipt.known)) c }
    {
        self.writer.confirm(log, receipt);
        self.journal.stands();
    }
}
