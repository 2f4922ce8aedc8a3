//! The session slots of an open day: each serves one session after another, by one pass and one reader.
ghost use Rattle.std.specs.Prelude.{ℕ, ◌≡◌, ◌<◌, ◌≤◌, ◌+◌, ◌++◌, [], IfOk, filter_map, length, map, option_map, slice_index_or, vec_capacity, vec_len};
ghost use Rattle.std.specs.List.{cons_option};
ghost use Rattle.std.specs.Thread.{IsSend, IsSync};

use hx_blog::{Log, Reader};
use hx_day_context::{
    ActiveSession, DayClock, DayContext, Hosting, Notice, NoticeSink, SessionSlotInput,
    SessionSlotOutput, notice_of_end,
};
use hx_engine::{Entry, Exchange, Journal, Pass, Venue};
use hx_listener::{Connection, PendingLogins, count};
use hx_sessions::{Ended, Fault, Gate, Logins, Part, Session};
use hx_soup::rejected;
use hx_units::MemberNo;
use std::alloc::{AllocError, Global};
use std::io::Write;
use std::net::SocketAddr;
use std::sync::Wait;
use std::thread::{Threads, for_each_mut};
use std::time::Clock;

/// The pass and the reader by which a session slot serves its sessions.
#[derive(Drop)]
pub struct SlotWorker<V: Venue> {
    /// The pass by which messages are submitted.
    pub pass: Pass<V>,
    /// The reader by which replies are asked for.
    pub reader: Reader<Entry>,
    ghost belongs: { reader.log ≡ V.log },
}

// A session slot, which is empty while a session is served.
#[derive(Drop)]
struct Slot<V: Venue> {
    worker: Option<SlotWorker<V>>,
}

/// The session slots of an open day, before its sessions.
#[derive(Drop)]
pub struct SlotWorkers<V: Venue> {
    slots: Vec<Slot<V>>,
    // Where the passes are put after all sessions.
    passes: Vec<Pass<V>>,
    ghost empty: { passes.items ≡ [] },
    ghost room: { vec_len slots ≤ vec_capacity passes },
}

/// What all session slots share.
#[derive(Drop)]
pub struct SlotContext<'a, G, B> {
    /// What the day is served by.
    pub hosting: &'a Hosting<'a, G, B>,
    /// What its workers share.
    pub day_context: &'a DayContext<'a, B>,
    /// The connections that wait for a session slot.
    pub pending_logins: &'a PendingLogins,
}

// A gate that puts a member who has logged in into the session table, and posts from where.
#[derive(Clone, Copy)]
struct Announcing<'a, G, B, T> {
    rt: &'a T,
    slot_context: &'a SlotContext<'a, G, B>,
    session_slot: usize,
    from: SocketAddr,
}

impl<'a, G: Gate, B: NoticeSink, T: Wait> Gate for Announcing<'a, G, B, T> {
    fn opened(&self, member: MemberNo) {
        let from = self.from;
        count(&self.slot_context.hosting.tally.accepted);
        self.slot_context
            .day_context
            .session_slots
            .occupy(self.rt, self.session_slot, ActiveSession { member, from });
        self.slot_context
            .day_context
            .notice_sink
            .post(Notice::Opened { member, from });
        self.slot_context.hosting.gate.opened(member);
    }

    fn before(&self, member: MemberNo, number: u64) {
        self.slot_context.hosting.gate.before(member, number);
    }

    fn after(&self, member: MemberNo, number: u64) {
        self.slot_context.hosting.gate.after(member, number);
    }
}

// The letter of a login that is rejected (SoupBinTCP 3.00, Login Rejected Packet: Not Authorized).
const NOT_AUTHORIZED: u8 = b'A';

impl<G, B: NoticeSink> SlotContext<'_, G, B> {
    // Refuses a member whose logins the operator refuses, if this is one. Gives the connection back otherwise.
    fn keep_out(&self, connection: Connection) -> Option<Connection> {
        let Some(member) = connection.inlet.member(self.hosting.setup) else {
            return Some(connection);
        };
        if self.day_context.session_slots.may_log_in(member) {
            return Some(connection);
        }
        let Connection {
            mut outlet,
            from,
            ..
        } = connection;
        let _ = outlet.write(rejected(NOT_AUTHORIZED).as_slice());
        let _ = outlet.flush();
        count(&self.hosting.tally.refused);
        self.day_context
            .notice_sink
            .post(Notice::Forbidden { member, from });
        None
    }

    // Posts a notice of how a session ended, and counts a login that was refused.
    fn tell_end(
        &self,
        member: Option<MemberNo>,
        from: SocketAddr,
        how: &Result<Ended, Fault>,
        is_called: bool,
    ) {
        if matches!(how, Err(Fault::NotAuthorized { .. })) {
            count(&self.hosting.tally.refused);
        }
        let notice = match member {
            Some(member) if is_called => Some(Notice::Dropped { member, from }),
            _ => notice_of_end(member, from, how),
        };
        if let Some(notice) = notice {
            self.day_context.notice_sink.post(notice);
        }
    }
}

/// A session slot for each of these passes, in their order.
pub fn make_slot_workers<V: Venue>(
    alloc: Global,
    log: &Log<Entry>,
    passes: Vec<Pass<V>>,
    reader: &mut Reader<Entry>,
) -> Result<SlotWorkers<V>, AllocError>
    requires { (log.now ≡ V.log) × (reader.old.log ≡ V.log) }
    ensures reader { reader.new.log ≡ V.log }
    ensures each { IfOk result (λ slot_workers.
        filter_map (λ s. option_map (λ p. p.pass.number) s.worker) slot_workers.slots.items
        ≡ map (λ p. p.number) passes.items) }
{
    let count = passes.len();
    let mut slots = Vec::with_capacity(alloc, count)?;
    let back = Vec::with_capacity(alloc, count)?;
    make_slots(log, passes, reader, &mut slots);
    Ok(SlotWorkers {
        slots,
        passes: back,
    })
}

// Puts each pass into a slot of its own.
fn make_slots<V: Venue>(
    log: &Log<Entry>,
    passes: Vec<Pass<V>>,
    reader: &mut Reader<Entry>,
    slots: &mut Vec<Slot<V>>,
)
    requires logs { (log.now ≡ V.log) × (reader.old.log ≡ V.log) }
    requires empty { slots.old.items ≡ [] }
    requires room { vec_len passes ≤ vec_capacity slots.old }
    ensures reader { reader.new.log ≡ V.log }
    ensures count { vec_len slots.new ≡ vec_len passes }
    ensures each { filter_map (λ s. option_map (λ p. p.pass.number) s.worker) slots.new.items
        ≡ map (λ p. p.number) passes.items }
{
    for pass in passes {
        let reader = reader.split(log);
        let worker = Some(SlotWorker { pass, reader });
        slots.push_reserved(Slot { worker });
    }
}

impl<V: Venue + Send + Sync> SlotWorker<V> {
    // Serves one session. The session slot is free again when the session has ended, for whatever reason.
    fn serve<
        'x,
        J: Journal + Drop + Send,
        G: Gate + Sync,
        B: NoticeSink + Sync,
        T: Threads + Wait + Clock + Sync,
    >(
        self,
        rt: &'x T,
        alloc: Global,
        exchange: &'x Exchange<V, J>,
        slot_context: &'x SlotContext<'x, G, B>,
        session_slot: usize,
        connection: Connection,
    ) -> SlotWorker<V>
        ensures { result.pass.number ≡ self.pass.number }
    {
        let Connection {
            inlet,
            outlet,
            from,
        } = connection;
        let (hosting, session_slots) = (
            slot_context.hosting,
            slot_context.day_context.session_slots,
        );
        let part = Part {
            input: SessionSlotInput {
                inlet,
                session_slots,
                session_slot,
            },
            output: SessionSlotOutput {
                outlet,
                session_slots,
            },
            inbound: DayClock::of(rt, hosting.times),
            outbound: DayClock::of_clock(rt),
            pass: self.pass,
            reader: self.reader,
        };
        let gate = Announcing {
            rt,
            slot_context,
            session_slot,
            from,
        };
        let logins = Logins {
            setup: hosting.setup,
            copies: hosting.copies,
        };
        let turns = hosting.args.turns;
        let (part, how) = Session::run(rt, alloc, exchange, &logins, part, &gate, turns);
        let is_called = session_slots.vacate(rt, session_slot);
        slot_context.tell_end(
            part.input.inlet.member(hosting.setup),
            from,
            &how,
            is_called,
        );
        SlotWorker {
            pass: part.pass,
            reader: part.reader,
        }
    }

    // Serves the connections of the pending logins, one after another, until it is closed.
    fn serve_all<
        'x,
        J: Journal + Drop + Send,
        G: Gate + Sync,
        B: NoticeSink + Sync,
        T: Threads + Wait + Clock + Sync,
    >(
        self,
        rt: &'x T,
        alloc: Global,
        exchange: &'x Exchange<V, J>,
        slot_context: &'x SlotContext<'x, G, B>,
        session_slot: usize,
    ) -> SlotWorker<V>
        ensures { result.pass.number ≡ self.pass.number }
    {
        let mut worker = self;
        for _ in 0..u64::MAX {
            let Some(connection) = slot_context.pending_logins.take(rt) else {
                break;
            };
            let from = connection.from;
            if let Some(connection) = slot_context.keep_out(connection) {
                worker = worker.serve(rt, alloc, exchange, slot_context, session_slot, connection);
            }
            slot_context.pending_logins.leave(rt, from);
        }
        worker
    }
}

impl<V: Venue + Send + Sync> Slot<V> {
    // Serves the connections of the pending logins in this slot.
    fn serve<
        'x,
        J: Journal + Drop + Send,
        G: Gate + Sync,
        B: NoticeSink + Sync,
        T: Threads + Wait + Clock + Sync,
    >(
        &mut self,
        rt: &'x T,
        alloc: Global,
        exchange: &'x Exchange<V, J>,
        slot_context: &'x SlotContext<'x, G, B>,
        session_slot: usize,
    )
        ensures { option_map (λ p. p.pass.number) self.new.worker
            ≡ option_map (λ p. p.pass.number) self.old.worker }
    {
        if let Some(worker) = self.worker.take() {
            self.worker = Some(worker.serve_all(rt, alloc, exchange, slot_context, session_slot));
        }
    }
}

// Serves the connections of the pending logins in all slots at once.
fn serve_slots<
    'x,
    V: Venue + Send + Sync,
    J: Journal + Drop + Send,
    G: Gate + Sync,
    B: NoticeSink + Sync,
    T: Threads + Wait + Clock + Sync,
>(
    rt: &'x T,
    alloc: Global,
    exchange: &'x Exchange<V, J>,
    slot_context: &'x SlotContext<'x, G, B>,
    slots: &mut [Slot<V>],
)
    requires { 0 < length slots.old }
    ensures len { length slots.new ≡ length slots.old }
    ensures each { (i : ℕ) (d : _) → i < length slots.old
        → option_map (λ p. p.pass.number) (slice_index_or slots.new i d).worker
        ≡ option_map (λ p. p.pass.number) (slice_index_or slots.old i d).worker }
{
    let count = slots.len();
    let each = |session_slot: usize, slot: &mut Slot<V>|
        requires { IsSend V.row × IsSend J.row × IsSync V.row × IsSync G.row × IsSync B.row
            × IsSync T.row }
        ensures { option_map (λ p. p.pass.number) slot.exit.now.worker
            ≡ option_map (λ p. p.pass.number) slot.entry.now.worker }
    { slot.serve(rt, alloc, exchange, slot_context, session_slot) };
    for_each_mut(rt, slots, count, &each);
}

// Takes the passes out of all slots, in their order.
fn take_all<V: Venue>(slots: Vec<Slot<V>>, passes: &mut Vec<Pass<V>>)
    requires empty { passes.old.items ≡ [] }
    requires room { vec_len slots ≤ vec_capacity passes.old }
    ensures { map (λ p. p.number) passes.new.items
        ≡ filter_map (λ s. option_map (λ p. p.pass.number) s.worker) slots.items }
{
    for slot in slots {
        put(passes, slot);
    }
}

// Appends the pass of a slot to the others.
fn put<V: Venue>(passes: &mut Vec<Pass<V>>, slot: Slot<V>)
    requires { vec_len passes.old < vec_capacity passes.old }
    ensures numbers { map (λ p. p.number) passes.new.items ≡ map (λ p. p.number) passes.old.items
        ++ cons_option (option_map (λ p. p.pass.number) slot.worker) [] }
    ensures few { vec_len passes.new ≤ vec_len passes.old + 1 }
    ensures room { vec_capacity passes.new ≡ vec_capacity passes.old }
{
    if let Some(worker) = slot.worker {
        passes.push_reserved(worker.pass);
    }
}

/// Serves the connections of the pending logins in all session slots at once, until the pending logins are closed. The
/// passes come back, each once and in the order of the slots.
pub fn serve_slot_workers<
    'x,
    V: Venue + Send + Sync,
    J: Journal + Drop + Send,
    G: Gate + Sync,
    B: NoticeSink + Sync,
    T: Threads + Wait + Clock + Sync,
>(
    rt: &'x T,
    alloc: Global,
    exchange: &'x Exchange<V, J>,
    slot_context: &'x SlotContext<'x, G, B>,
    slot_workers: SlotWorkers<V>,
) -> Vec<Pass<V>>
    ensures { map (λ p. p.number) result.items
        ≡ filter_map (λ s. option_map (λ p. p.pass.number) s.worker) slot_workers.slots.items }
{
    let SlotWorkers {
        mut slots,
        mut passes,
    } = slot_workers;
    if slots.is_empty() {
        return passes;
    }
    serve_slots(rt, alloc, exchange, slot_context, &mut slots);
    take_all(slots, &mut passes);
    passes
}
