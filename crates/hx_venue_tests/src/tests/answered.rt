//! What a service answers, over memory.

use http_server::{Config, Connection, Service, State};
use std::hash::RandomState;
use std::process::Abort;
use std::random::RandomSource;

// The state, and all that is answered, if the input comes in pieces of `step` bytes.
pub fn answered<R: AllocGlobal + RandomSource + Abort, S: Service>(
    rt: &R,
    service: &mut S,
    input: &[u8],
    step: usize,
) -> (State, Vec<u8>) {
    let alloc = rt.alloc();
    let mut connection = Connection::new(
        alloc,
        RandomState::new(rt).expect(rt, "random keys"),
        Config::default(),
    );
    let mut output = Vec::new(alloc);
    for piece in input.chunks(step.max(1)) {
        let mut piece = piece;
        connection
            .read_from(&mut piece)
            .expect(rt, "bytes that are taken");
        connection.advance(service);
        connection
            .write_to(&mut output)
            .expect(rt, "bytes that are written");
    }
    (connection.state(), output)
}
