//! What etcd's gateway is asked, and what it answers.

mod appends;
mod calls;
mod heartbeats;
mod ranges;
mod texts;
mod trims;

use hx_etcd::{Answer, read_append_answer};
use std::alloc::Global;
use std::process::Abort;

fn answer(rt: &impl Abort, alloc: Global, status: u16, body: &str) -> Answer {
    Answer {
        status,
        body: Vec::from_slice(alloc, body.as_bytes()).expect(rt, "memory"),
    }
}
