//! The log of a day in an etcd: how it is taken over.
ghost use Rattle.std.specs.Prelude.{◌≡◌, [], true, IfOk};
ghost use Rattle.hx_tape_lines.specs.Text.{record_of};
ghost use Rattle.hx_desk.specs.Entries.{restored};
ghost use Rattle.hx_engine.specs.Journals.{lines};
ghost use Rattle.hx_etcd_log.specs.Copied.{records_of};
ghost use Rattle.hx_fenced_log.specs.JournalStates.{durable, appended, is_open};
ghost use Rattle.hx_fenced_log.specs.Mirrors.{Mirrors};

use crate::failure::Failure;
use hx_day_log::{MirroredDay, Replica, open_and_apply, stand_by_and_apply};
use hx_engine::{Applies, Journal, Recovered};
use hx_log_commands::{ActiveJournal, Contender, HeartbeatWatch, active_log_of, heartbeats_of};
use hx_recovery::Unwatched;
use hx_serve::{Notice, NoticeSink};
use std::fs;
use std::net::{Net, SocketAddr, TcpStream};
use std::rt::{Clock, Files};

/// Takes the log of a day over: returns the day, once the events in the log are applied to it, and the journal of the
/// exchange. A standby applies them as they come. The notice sink gets a notice when it stands by and when it is
/// active.
///
/// Errors: those of `active_log_of`, `open_and_apply` and `stand_by_and_apply`.
pub fn take_over<
    'x,
    R: AllocGlobal + Files<File = fs::File> + Net<Stream = TcpStream> + Clock,
    B: NoticeSink,
    D: Replica + Drop,
>(
    rt: &'x R,
    notice_sink: &B,
    nodes: &[SocketAddr],
    contender: Contender<'x, '_>,
    day: D,
) -> Result<(D, ActiveJournal<'x, R>), Failure>
    requires new { D.applied day ≡ [] }
    ensures appended { IfOk result (λ r. appended records_of r.1
        ≡ lines record_of (restored (D.applied r.0))) }
    ensures durable { IfOk result (λ r. durable records_of r.1
        ≡ lines record_of (restored (D.applied r.0))) }
    ensures is_open { IfOk result (λ r. is_open r.1.fault ≡ true) }
    ensures under { IfOk result (λ r. D.under r.0 ≡ D.under day) }
{
    let alloc = rt.alloc();
    let log = active_log_of(rt, nodes, contender)?;
    let writer = contender.writer;
    let (day, journal) = match contender.patience {
        None => open_and_apply(alloc, log, writer, day, &Unwatched)?,
        Some(patience) => {
            notice_sink.post(Notice::StandingBy);
            let mut watch = HeartbeatWatch::new(rt, heartbeats_of(rt, nodes)?, patience);
            stand_by_and_apply(alloc, log, writer, day, &mut watch, &Unwatched)?
        }
    };
    let events = day.count();
    notice_sink.post(Notice::Active { events });
    Ok((day, journal))
}

/// The same of a day with another journal beside its log: the day, that journal, and the one of the exchange.
///
/// Errors: those of `take_over`; `OtherJournal` if the journal beside the log has records that the log has not.
pub fn take_mirrored<
    'x,
    R: AllocGlobal + Files<File = fs::File> + Net<Stream = TcpStream> + Clock,
    B: NoticeSink,
    D: Applies + Drop,
    M: Journal + Drop,
>(
    rt: &'x R,
    notice_sink: &B,
    nodes: &[SocketAddr],
    contender: Contender<'x, '_>,
    day: D,
    beside: Recovered<M>,
) -> Result<(D, M, ActiveJournal<'x, R>), Failure>
    requires new { D.applied day ≡ [] }
    ensures mirror { IfOk result (λ r. Mirrors M.appended M.durable M.is_open r.1
        (lines record_of (restored (D.applied r.0)))) }
    ensures appended { IfOk result (λ r. appended records_of r.2
        ≡ lines record_of (restored (D.applied r.0))) }
    ensures durable { IfOk result (λ r. durable records_of r.2
        ≡ lines record_of (restored (D.applied r.0))) }
    ensures is_open { IfOk result (λ r. is_open r.2.fault ≡ true) }
    ensures under { IfOk result (λ r. D.under r.0 ≡ D.under day) }
{
    let mirrored = MirroredDay::new(day, beside);
    let (mirrored, journal) = take_over(rt, notice_sink, nodes, contender, mirrored)?;
    let (day, mirror) = mirrored.into_both()?;
    Ok((day, mirror, journal))
}
