//! How notices read, and which arguments are none.

use super::{equal, holds};
use hx_serve::{Json, Left, Notice, Refusal, ServeArgs};
use hx_sessions::Ended;
use hx_units::MemberNo;
use std::alloc::Global;
use std::net::{Ipv4Addr, SocketAddr};
use std::process::Abort;

// A notice in words and as JSON.
fn reads<R: Abort>(rt: &R, alloc: Global, notice: Notice, words: &str, json: &str) {
    let outputs = format!(in alloc; "{}", notice).expect(rt, "memory");
    equal(rt, outputs.as_str(), words);
    let outputs = format!(in alloc; "{}", Json { notice }).expect(rt, "memory");
    equal(rt, outputs.as_str(), json);
}

// Where a member comes from.
fn from() -> SocketAddr {
    SocketAddr::from((Ipv4Addr::new(127, 0, 0, 1), 5000))
}

#[test]
fn notices_of_sessions_in_words_and_as_json(rt: HostRuntime) {
    let alloc = rt.alloc();
    let member = MemberNo::of(7).expect(&rt, "a member");
    let from = from();
    let how = Ended::Logout;
    reads(
        &rt,
        alloc,
        Notice::Opened { member, from },
        "session open member 7 from 127.0.0.1:5000",
        "{\"notice\":\"session open\",\"member\":7,\"from\":\"127.0.0.1:5000\"}",
    );
    reads(
        &rt,
        alloc,
        Notice::Ended { member, from, how },
        "session end member 7 from 127.0.0.1:5000: logged out",
        "{\"notice\":\"session end\",\"member\":7,\"from\":\"127.0.0.1:5000\",\"how\":\"logged \
         out\"}",
    );
    let faulted = Notice::Faulted {
        fault: 4,
        member: None,
        from,
    };
    reads(
        &rt,
        alloc,
        faulted,
        "session fault 4 from 127.0.0.1:5000",
        "{\"notice\":\"session fault\",\"fault\":4,\"from\":\"127.0.0.1:5000\"}",
    );
    let why = Left::Late;
    reads(
        &rt,
        alloc,
        Notice::Left { from, why },
        "connection from 127.0.0.1:5000 closed: no login in time",
        "{\"notice\":\"connection closed\",\"from\":\"127.0.0.1:5000\",\"why\":\"no login in \
         time\"}",
    );
}

#[test]
fn notices_of_the_day_in_words_and_as_json(rt: HostRuntime) {
    let alloc = rt.alloc();
    let refused = Notice::Refused {
        line: 3,
        why: Refusal::Bad,
    };
    reads(
        &rt,
        alloc,
        refused,
        "operator line 3: bad line",
        "{\"notice\":\"operator line\",\"line\":3,\"why\":\"bad line\"}",
    );
    reads(
        &rt,
        alloc,
        Notice::Unsent { to: from() },
        "feed to 127.0.0.1:5000 not sent",
        "{\"notice\":\"feed not sent\",\"to\":\"127.0.0.1:5000\"}",
    );
    reads(
        &rt,
        alloc,
        Notice::OpenToOthers,
        "open to other machines: put a line that encrypts before it (see OPERATING)",
        "{\"notice\":\"open to other machines: put a line that encrypts before it (see \
         OPERATING)\"}",
    );
    reads(
        &rt,
        alloc,
        Notice::Closing,
        "operator input ended: the hours are ended",
        "{\"notice\":\"operator input ended: the hours are ended\"}",
    );
}

#[test]
fn notices_of_a_standby_in_words_and_as_json(rt: HostRuntime) {
    let alloc = rt.alloc();
    reads(
        &rt,
        alloc,
        Notice::StandingBy,
        "standing by",
        "{\"notice\":\"standing by\"}",
    );
    reads(
        &rt,
        alloc,
        Notice::Active { events: 7 },
        "in office with 7 events",
        "{\"notice\":\"in office\",\"events\":7}",
    );
}

#[test]
fn the_feed_does_not_go_to_the_port_of_requests(rt: HostRuntime) {
    holds(&rt, ServeArgs::of(9001, 9002, 9002, 1, 10, 10).is_none());
    holds(&rt, ServeArgs::of(9001, 9002, 9003, 1, 10, 10).is_some());
}
