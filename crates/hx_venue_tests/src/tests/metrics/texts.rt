use crate::tests::{equal, holds};
use hx_metrics::{Figures, Hours, write_metrics};

const ALL: &[u8] = b"# HELP hx_sessions Sessions that are logged in.
# TYPE hx_sessions gauge
hx_sessions 2
# HELP hx_places Sessions that can be logged in at a time.
# TYPE hx_places gauge
hx_places 5
# HELP hx_places_left Places that are free.
# TYPE hx_places_left gauge
hx_places_left 3
# HELP hx_logins_accepted_total Logins that were accepted.
# TYPE hx_logins_accepted_total counter
hx_logins_accepted_total 7
# HELP hx_logins_refused_total Logins that were refused.
# TYPE hx_logins_refused_total counter
hx_logins_refused_total 1
# HELP hx_closed_at_door_total Connections closed before their login.
# TYPE hx_closed_at_door_total counter
hx_closed_at_door_total 4
# HELP hx_events_total Events that are recorded.
# TYPE hx_events_total counter
hx_events_total 1000000
# HELP hx_replies_total Replies to members.
# TYPE hx_replies_total counter
hx_replies_total 1200000
# HELP hx_last_event_age_seconds Seconds since the last event.
# TYPE hx_last_event_age_seconds gauge
hx_last_event_age_seconds 1.500000000
# HELP hx_system_event 1 at the last code of the hours, else 0.
# TYPE hx_system_event gauge
hx_system_event{code=\"O\"} 0
hx_system_event{code=\"S\"} 0
hx_system_event{code=\"Q\"} 1
hx_system_event{code=\"M\"} 0
hx_system_event{code=\"E\"} 0
hx_system_event{code=\"C\"} 0
# HELP hx_feed_messages_total Messages of the feed.
# TYPE hx_feed_messages_total counter
hx_feed_messages_total 900000
# HELP hx_feed_slots_left Messages that the feed has room for.
# TYPE hx_feed_slots_left gauge
hx_feed_slots_left 0
# HELP hx_requests_answered_total Requests that were answered.
# TYPE hx_requests_answered_total counter
hx_requests_answered_total 12
# HELP hx_requests_refused_total Requests that were not answered.
# TYPE hx_requests_refused_total counter
hx_requests_refused_total 13
# HELP hx_journal_waiting_events Events that wait for the journal.
# TYPE hx_journal_waiting_events gauge
hx_journal_waiting_events 6
# HELP hx_journal_syncs_total Syncs of the journal.
# TYPE hx_journal_syncs_total counter
hx_journal_syncs_total 14
# HELP hx_journal_sync_seconds_total Seconds of all syncs.
# TYPE hx_journal_sync_seconds_total counter
hx_journal_sync_seconds_total 42.000000007
# HELP hx_journal_full 1 while the journal waits for room, else 0.
# TYPE hx_journal_full gauge
hx_journal_full 1
";

#[test]
fn all_figures_are_reported(rt: HostRuntime) {
    let figures = Figures {
        sessions: Some(2),
        slots: Some(5),
        slots_left: Some(3),
        logins_accepted: Some(7),
        logins_refused: Some(1),
        closed_at_acceptor: Some(4),
        events: Some(1_000_000),
        last_event_age: Some(1_500_000_000),
        feed_messages: Some(900_000),
        feed_slots_left: Some(0),
        replies: Some(1_200_000),
        requests_answered: Some(12),
        requests_refused: Some(13),
        journal_waiting: Some(6),
        journal_syncs: Some(14),
        journal_sync_time: Some(42_000_000_007),
        journal_full: Some(true),
        phase: Some(Hours::StartOfMarketHours),
    };
    let text = write_metrics(rt.alloc(), &figures).expect(&rt, "memory");
    equal(&rt, text.as_slice(), ALL);
}

#[test]
fn what_is_not_known_is_left_out(rt: HostRuntime) {
    let nothing = write_metrics(rt.alloc(), &Figures::default()).expect(&rt, "memory");
    equal(&rt, nothing.len(), 0);
    let figures = Figures {
        events: Some(0),
        journal_full: Some(false),
        ..Figures::default()
    };
    let text = write_metrics(rt.alloc(), &figures).expect(&rt, "memory");
    let words = b"# HELP hx_events_total Events that are recorded.
# TYPE hx_events_total counter
hx_events_total 0
# HELP hx_journal_full 1 while the journal waits for room, else 0.
# TYPE hx_journal_full gauge
hx_journal_full 0
";
    equal(&rt, text.as_slice(), words.as_slice());
}

// The age of the last event, in nanoseconds, and how the text says it.
#[test]
fn nanoseconds_are_reported_as_seconds(rt: HostRuntime) {
    let cases: [(u64, &[u8]); 5] = [
        (0, b" 0.000000000\n"),
        (1, b" 0.000000001\n"),
        (999_999_999, b" 0.999999999\n"),
        (60_000_000_000, b" 60.000000000\n"),
        (u64::MAX, b" 18446744073.709551615\n"),
    ];
    for (nanos, words) in cases {
        let figures = Figures {
            last_event_age: Some(nanos),
            ..Figures::default()
        };
        let text = write_metrics(rt.alloc(), &figures).expect(&rt, "memory");
        holds(&rt, text.ends_with(words));
    }
}

#[test]
fn the_hours_come_in_their_order(rt: HostRuntime) {
    for (count, letter) in [1u8, 2, 3, 4, 5, 6].iter().zip(b"OSQMEC".iter()) {
        let code = Hours::last_of(*count).expect(&rt, "a code");
        equal(&rt, code.letter(), *letter);
    }
    holds(
        &rt,
        Hours::last_of(0).is_none() && Hours::last_of(7).is_none(),
    );
}
