//! Events.
use super::equal;
use hx_market::{Bytes, Event};

#[test]
fn copies_are_equal(rt: HostRuntime) {
    let event = Event::Message {
        member: 1,
        time: 10,
        bytes: Bytes::of(rt.alloc(), b"OUX").expect(&rt, "memory"),
    };
    let copy = event.copy().expect(&rt, "memory");
    let Event::Message {
        member,
        time,
        bytes,
    } = copy
    else {
        panic!(rt; "another event");
    };
    equal(&rt, (member, time), (1, 10));
    equal(&rt, bytes.as_slice(), b"OUX".as_slice());
}
